// Texts of eight-bit characters, by whole messages: coding type 0100 beside 0111.
use case_answers::row_lines::row;
use case_lines::taking::messages;
use std::io;
use std::io::Write;

fn groups<W: Write>(out: &mut W, store: &mut [u8]) -> io::Result<()> {
    messages(
        out,
        b"the same in 16-bit units: 0202 0012 08 07 08 01 D1 000D 60 00 100001 0041 0031 0000\n\
        group with an empty text, DataLength 8: 0202 000D 08 04 08 01 D1 0008 60 00 100001 00\n\
        the same with a byte more, DataLength 9: 0202 000E 08 04 08 01 D1 0009 60 00 100001 00 00\n\
        group with a text without its end: 0202 000D 08 04 08 01 D1 0008 60 00 100001 41\n\
        group with 17 characters: 0202 001E 08 04 08 01 D1 0019 60 00 100001 {11 x 41} 00\n\
        group with 16 characters, DataLength 24: 0202 001D 08 04 08 01 D1 0018 60 00 100001 {10 x 41} 00\n",
        store,
    )
}

fn texts<W: Write>(out: &mut W, store: &mut [u8]) -> io::Result<()> {
    messages(
        out,
        b"quick text of 24 characters: 0202 0022 08 04 08 01 CC 001D 41 07 {18 x 41} 00\n\
        quick text of 23 characters: 0202 0021 08 04 08 01 CC 001C 41 07 {17 x 41} 00\n\
        quick text without a character: 0202 000A 08 04 08 01 CC 0005 41 08 00\n\
        delete of a quick text, without a character: 0202 000A 08 04 08 01 CC 0005 81 07 00\n\
        status text FF: 0202 000C 08 04 08 01 D0 0007 40 01 20 FF 00\n",
        store,
    )
}

// The line, the quick text, the status text and the individual are sent twice.
fn both<W: Write>(out: &mut W, store: &mut [u8]) -> io::Result<()> {
    messages(
        out,
        b"channel 241, without texts: 0202 000B 08 04 08 01 CE 0006 4001 0F1F\n\
        names of four tables in eight-bit characters: 0202 0026 08 04 08 04 CA 0008 40 01 123F 41 00 CC 0006 C1 07 42 00 D0 0007 40 01 7F 43 00 D2 0009 40 0F FF7DC8 44 00\n\
        the same names in 16-bit units: 0202 002E 08 07 08 04 CA 000A 40 01 123F 0041 0000 CC 0008 C1 07 0042 0000 D0 0009 40 01 7F 0043 0000 D2 000B 40 0F FF7DC8 0044 0000\n",
        store,
    )
}

pub(crate) fn run<W: Write>(out: &mut W, store: &mut [u8]) -> io::Result<()> {
    messages(
        out,
        b"a fresh store\n\
        group A1 in eight-bit characters: 0202 000F 08 04 08 01 D1 000A 60 00 100001 41 31 00\n",
        store,
    )?;
    row(out, store, 4, 0)?;
    groups(out, store)?;
    texts(out, store)?;
    row(out, store, 3, 32)?;
    both(out, store)?;
    row(out, store, 1, 0)
}
