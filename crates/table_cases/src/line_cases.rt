// Line contacts: numbers, and room for 32.
use case_lines::taking::requests;
use std::io;
use std::io::Write;

pub(crate) fn run<W: Write>(out: &mut W, store: &mut [u8]) -> io::Result<()> {
    requests(
        out,
        b"a fresh store\n\
        number of 18 digits: 01 CA 0010 40 01 123456789012345678FF 0000\n\
        number of 19 digits: 01 CA 0010 40 01 1234567890123456789F 0000\n\
        number without a digit: 01 CA 0007 40 01 FF 0000\n\
        digit A: 01 CA 0008 40 01 1AFF 0000\n\
        number filled with 0: 01 CA 0008 40 01 12F0 0000\n\
        line 12: 01 CA 0008 40 01 12FF 0000\n\
        line 12 with its reserved bit: 01 CA 0008 41 01 12FF 0000\n\
        line 12 with other flags: 01 CA 0008 60 01 12FF 0000\n\
        delete of line 13: 01 CA 0008 80 01 13FF 0000\n\
        delete of line 12: 01 CA 0008 80 01 12FF 0000\n\
        lines with operation 00: 01 CA 0004 00 00\n\
        a fresh store\n\
        33 line contacts, a setting each: 21 {21 x CA 0008 40 01 % FF 0000}\n\
        32 line contacts, a setting each: 20 {20 x CA 0008 40 01 % FF 0000}\n\
        the 33rd line contact: 01 CA 0008 40 01 32FF 0000\n\
        the 33rd line contact, with digit A: 01 CA 0008 40 01 3AFF 0000\n\
        a known line, when full: 01 CA 0008 60 01 31FF 0000\n\
        its number with the other IDtype, when full: 01 CA 0008 42 01 31FF 0000\n\
        a delete, then the 33rd: 02 CA 0008 80 01 07FF 0000 CA 0008 40 01 32FF 0000\n\
        33 entries, all different: 01 CA 0088 C0 21 {21 x % FF 0000}\n\
        33 entries, 32 different: 01 CA 0088 C0 21 {20 x % FF 0000} 00FF 0000\n\
        lines replaced by none: 01 CA 0004 C0 00\n",
        store,
    )
}
