// Quick texts and status texts.
use case_lines::taking::requests;
use std::io;
use std::io::Write;

pub(crate) fn run<W: Write>(out: &mut W, store: &mut [u8]) -> io::Result<()> {
    requests(
        out,
        b"a fresh store\n\
        64 quick texts, Count 0: 01 CC 0143 C0 {40 x # 0041 0000}\n\
        63 quick texts: 01 CC 013E FF {3F x # 0041 0000}\n\
        the 64th quick text, by an add: 01 CC 0008 41 3F 0042 0000\n\
        add to a quick text's index in use: 01 CC 0008 41 3F 0043 0000\n\
        delete of a quick text: 01 CC 0006 81 3F 0000\n\
        delete of a quick text that is not there: 01 CC 0006 81 3F 0000\n\
        quick text without a unit: 01 CC 0006 41 3F 0000\n\
        quick text without an end: 01 CC 0006 41 3F 0041\n\
        quick text of 24 units: 01 CC 0036 41 3F {18 x 01 #} 0000\n\
        quick text of 23 units: 01 CC 0034 41 3F {17 x 01 #} 0000\n\
        quick texts replaced by one: 01 CC 0008 C1 3F 0043 0000\n\
        quick texts replaced by it with reserved bits: 01 CC 0008 C1 FF 0043 0000\n\
        quick texts replaced by none: 01 CC 0003 C0\n\
        status code 31: 01 D0 0007 40 01 1F 0000\n\
        status code 128: 01 D0 0007 40 01 80 0000\n\
        status code 32: 01 D0 0007 40 01 20 0000\n\
        status code 32 with reserved bits: 01 D0 0007 7F 01 20 0000\n\
        add to a status code in use: 01 D0 0009 40 01 20 0041 0000\n\
        status Count one too large: 01 D0 0007 40 02 20 0000\n\
        delete of status code 31: 01 D0 0007 80 01 1F 0000\n\
        delete of status code 32: 01 D0 0007 80 01 20 0000\n\
        status text of 17 units: 01 D0 0029 40 01 7F {11 x 01 #} 0000\n\
        status text of 16 units: 01 D0 0027 40 01 7F {10 x 01 #} 0000\n",
        store,
    )
}
