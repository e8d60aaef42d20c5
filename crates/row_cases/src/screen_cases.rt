// Rows of the screen: with a text, without, outside the plan, absent.
use case_answers::row_lines::{row, show};
use case_lines::sets::Set;
use case_lines::showing::text;
use case_lines::taking::requests;
use screen::rows::Row;
use std::io;
use std::io::Write;

// A table and a place for each row that is shown.
const ROWS: [(u32, u32); 21] = [
    (1, 0),
    (1, 1),
    (1, 2),
    (2, 7),
    (2, 8),
    (2, 64),
    (3, 32),
    (3, 127),
    (3, 31),
    (3, 33),
    (4, 0),
    (4, 1),
    (4, 2),
    (4, 3),
    (4, 16),
    (5, 0),
    (5, 1),
    (5, 2),
    (5, 3),
    (0, 0),
    (9, 0),
];

fn fill<W: Write>(out: &mut W, store: &mut [u8]) -> io::Result<()> {
    requests(
        out,
        b"a fresh store\n\
        line 0 with a text: 01 CA 000D 42 01 2345FF 0041 0042 0000\n\
        line 1 without: 01 CA 0008 40 01 123F 0000\n\
        quick text 7: 01 CC 0008 41 07 0051 0000\n\
        status texts 32, and 127 which is empty: 01 D0 000C 40 02 20 0053 0000 7F 0000\n\
        group 0 with a text: 01 D1 000B 60 00 100001 0047 0000\n\
        group 1 without: 01 D1 0009 60 01 FF1B58 0000\n\
        group 2 without, outside the plan: 01 D1 0009 60 02 101B59 0000\n\
        individual 0 with a text: 01 D2 000B 40 00 100001 0049 0000\n\
        individual 1 without: 01 D2 0009 40 01 FF7DC8 0000\n\
        individual 2 without, outside the plan: 01 D2 0009 40 02 10FDEC 0000\n",
        store,
    )
}

fn rows<W: Write>(out: &mut W, store: &[u8]) -> io::Result<()> {
    for (table, place) in &ROWS {
        row(out, store, *table, *place)?;
    }
    Ok(())
}

fn refused<W: Write>(out: &mut W, store: &[u8]) -> io::Result<()> {
    let mut short = [0xEEu8; 35];
    text(out, b"line 1 with a scratch of 35 bytes")?;
    show(out, Set::Handheld, store, Row::Line(1), &mut short)?;
    let mut scratch = [0xEEu8; 36];
    let bytes = [0u8; 36];
    text(out, b"line 1 of what is no store")?;
    show(out, Set::Handheld, &bytes, Row::Line(1), &mut scratch)
}

pub(crate) fn run<W: Write>(out: &mut W, store: &mut [u8]) -> io::Result<()> {
    fill(out, store)?;
    rows(out, store)?;
    refused(out, store)
}
