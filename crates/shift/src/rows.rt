// The rows of the screen that are there, a line for each table that has one.
use super::behind::behind;
use printing::output::{decimal, text};
use printing::utf8::show_text;
use screen::answers::number_of;
use screen::handheld::{row_number, row_part};
use screen::rows::row_of;
use std::io;
use std::io::Write;

// Each table, its first place, and the one behind its last.
const PLACES: [(u32, u32, u32); 8] = [
    (1, 0, 32),
    (2, 0, 64),
    (3, 32, 128),
    (4, 0, 16),
    (5, 0, 16),
    (6, 0, 64),
    (7, 0, 64),
    (8, 0, 16),
];

fn name<W: Write>(out: &mut W, table: u32) -> io::Result<()> {
    match table {
        1 => text(out, b"  lines                "),
        2 => text(out, b"  quick texts          "),
        3 => text(out, b"  status texts         "),
        4 => text(out, b"  groups               "),
        5 => text(out, b"  individuals          "),
        6 => text(out, b"  group contacts       "),
        7 => text(out, b"  individual contacts  "),
        _ => text(out, b"  line slots           "),
    }
}

// Whether a table has a row at a place.
fn is_there(store: &[u8], table: u32, place: u32) -> bool {
    let scratch = [0u8; 36];
    number_of(row_number(store, &scratch, row_of(table, place))) == 0
}

// The place of a row and what it shows.
pub(crate) fn row<W: Write>(out: &mut W, store: &[u8], table: u32, place: u32) -> io::Result<()> {
    decimal(out, place)?;
    text(out, b" ")?;
    let mut scratch = [0u8; 36];
    show_text(out, row_part(store, &mut scratch, row_of(table, place)))
}

// What stands before a row: the table's name before the first, a comma before the others.
fn before<W: Write>(out: &mut W, table: u32, first: bool) -> io::Result<()> {
    if first {
        name(out, table)
    } else {
        text(out, b", ")
    }
}

// A table's rows on one line: are there any?
fn table_rows<W: Write>(
    out: &mut W,
    store: &[u8],
    table: u32,
    start: u32,
    end: u32,
) -> io::Result<bool> {
    let mut first = true;
    for place in start..end {
        if is_there(store, table, place) {
            before(out, table, first)?;
            row(out, store, table, place)?;
            behind(out, store, table, place)?;
            first = false;
        }
    }
    if !first {
        text(out, b"\n")?;
    }
    Ok(!first)
}

// The rows of every table.
pub(crate) fn rows<W: Write>(out: &mut W, store: &[u8]) -> io::Result<()> {
    let mut none = true;
    for (table, start, end) in &PLACES {
        if table_rows(out, store, *table, *start, *end)? {
            none = false;
        }
    }
    if none {
        text(out, b"  no rows\n")?;
    }
    Ok(())
}
