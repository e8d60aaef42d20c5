// Group and individual slots.
use case_lines::taking::requests;
use std::io;
use std::io::Write;

pub(crate) fn run<W: Write>(out: &mut W, store: &mut [u8]) -> io::Result<()> {
    requests(
        out,
        b"a fresh store\n\
        group: 01 D1 0009 60 03 100001 0000\n\
        group with reserved bits: 01 D1 0009 60 33 100001 0000\n\
        group over another: 01 D1 0009 60 03 100002 0000\n\
        group with attribute 00: 01 D1 0009 40 03 100001 0000\n\
        group on address 108000: 01 D1 0009 60 03 108000 0000\n\
        group replace: 01 D1 0009 E0 03 100001 0000\n\
        group with operation 00: 01 D1 0009 20 03 100001 0000\n\
        group delete without a text's end: 01 D1 0009 80 03 000000 0041\n\
        group delete with attribute 00 and address 0: 01 D1 0009 80 03 000000 0000\n\
        group delete of none: 01 D1 0009 80 03 000000 0000\n\
        individual: 01 D2 0009 40 0F FF7DC8 0000\n\
        individual with reserved bits: 01 D2 0009 43 FF FF7DC8 0000\n\
        individual on address 0FFFFF: 01 D2 0009 40 0F 0FFFFF 0000\n\
        individual replace: 01 D2 0009 C0 0F FF7DC8 0000\n\
        individual delete with address 0: 01 D2 0009 80 0F 000000 0000\n\
        individual delete of none: 01 D2 0009 80 0F 000000 0000\n",
        store,
    )
}
