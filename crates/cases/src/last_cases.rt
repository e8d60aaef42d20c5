// The last item: send, reboot and the hash kept; and result queries.
use case_lines::taking::messages;
use std::io;
use std::io::Write;

pub(crate) fn run<W: Write>(out: &mut W, store: &mut [u8]) -> io::Result<()> {
    messages(
        out,
        b"a fresh store\n\
        FF before another: 0202 000C 08 07 08 02 FF 0003 40 CB 0003 A0\n\
        FF second of three: 0202 0010 08 07 08 03 CB 0003 A0 FF 0003 40 CB 0003 A0\n\
        FF with code 3: 0202 0008 08 07 08 01 FF 0003 43\n\
        FF with code 1 and 3 bytes: 0202 000B 08 07 08 01 FF 0006 C1 112233\n\
        FF with code 0: 0202 0008 08 07 08 01 FF 0003 00\n\
        FF with send and code 0: 0202 000C 08 07 08 02 CB 0003 A0 FF 0003 40\n\
        query with nothing kept: 0202 0008 08 00 0D 01 11223344\n\
        FF with reboot, send and hash 1: 0202 000C 08 07 08 01 FF 0007 C1 11223344\n\
        query with it: 0202 0008 08 00 0D 01 11223344\n\
        query with another value: 0202 0008 08 00 0D 01 11223345\n\
        query with code 0: 0202 0004 08 00 0D 00\n\
        query with code 2: 0202 000E 08 00 0D 02 11223344000000000000\n\
        query with code 3: 0202 0004 08 00 0D 03\n\
        query without a code: 0202 0003 08 00 0D\n\
        query cut: 0202 0007 08 00 0D 01 112233\n\
        query with a byte left over: 0202 0009 08 00 0D 01 1122334400\n\
        LA 9 with another hash: 0202 0012 08 07 08 02 CF 0005 0009 00 FF 0007 C1 55667788\n\
        query after a refusal: 0202 0008 08 00 0D 01 11223344\n\
        request without FF: 0202 0008 08 07 08 01 CB 0003 A0\n\
        query after a request without FF: 0202 0008 08 00 0D 01 11223344\n\
        FF with send and hash 2: 0202 0012 08 07 08 01 FF 000D 42 0102030405060708090A\n\
        query with it, coding type 15, reserved bits: 0202 000E 08 FF 0D C2 0102030405060708090A\n\
        FF with reboot and code 0: 0202 0008 08 07 08 01 FF 0003 80\n\
        query after code 0: 0202 000E 08 00 0D 02 0102030405060708090A\n",
        store,
    )
}
