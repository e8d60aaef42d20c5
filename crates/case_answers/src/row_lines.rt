// What the screen shows in a row.
use case_lines::sets::Set;
use case_lines::showing::{decimal, hex, text};
use screen::answers::{Answer, number_of};
use screen::rows::{Row, row_of};
use std::io;
use std::io::Write;

fn row_number(set: Set, store: &[u8], scratch: &[u8], row: Row) -> Answer {
    match set {
        Set::Handheld => screen::handheld::row_number(store, scratch, row),
        Set::Vehicle => screen::vehicle::row_number(store, scratch, row),
    }
}

fn part<W: Write>(out: &mut W, bytes: &[u8]) -> io::Result<()> {
    text(out, b", shows")?;
    hex(out, bytes, bytes.len())
}

// What a row shows: its number, and the bytes of its part.
pub fn show<W: Write>(
    out: &mut W,
    set: Set,
    store: &[u8],
    row: Row,
    scratch: &mut [u8],
) -> io::Result<()> {
    text(out, b": ")?;
    decimal(out, number_of(row_number(set, store, scratch, row)) as u32)?;
    match set {
        Set::Handheld => part(out, screen::handheld::row_part(store, scratch, row)),
        Set::Vehicle => part(out, screen::vehicle::row_part(store, scratch, row)),
    }
}

// The line of a row.
pub fn row_for<W: Write>(
    out: &mut W,
    set: Set,
    store: &[u8],
    table: u32,
    place: u32,
) -> io::Result<()> {
    text(out, b"row of table ")?;
    decimal(out, table)?;
    text(out, b", place ")?;
    decimal(out, place)?;
    let mut scratch = [0xEEu8; 36];
    show(out, set, store, row_of(table, place), &mut scratch)
}

// The same of a hand-held.
pub fn row<W: Write>(out: &mut W, store: &[u8], table: u32, place: u32) -> io::Result<()> {
    row_for(out, Set::Handheld, store, table, place)
}
