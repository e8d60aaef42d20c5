// Rows of the screens: the first in which the two engines differ, and those that the plain engine has.
use plain_rows::desk::{row_number as plain_number, row_place as plain_place};
use printing::output::{decimal, hex, text};
use screen::answers::{Answer, Place, number_of};
use screen::handheld::{row_number, row_part};
use screen::rows::row_of;
use std::io;
use std::io::Write;

// Each table, its first place, and the one behind its last.
const PLACES: [(u32, u32, u32); 8] = [
    (1, 0, 32),
    (2, 0, 64),
    (3, 32, 128),
    (4, 0, 16),
    (5, 0, 16),
    (6, 0, 64),
    (7, 0, 64),
    (8, 0, 16),
];

// Whether the first bytes of a scratch, so many, are a part's.
fn shows(part: &[u8], scratch: &[u8], bytes: usize) -> bool {
    bytes <= scratch.len() && part == &scratch[0..bytes]
}

// Whether both engines answer a row with the same number and the same bytes.
fn same_row(store: &[u8], area: &[u8], table: u32, place: u32) -> bool {
    let mut first = [0u8; 36];
    let mut second = [0u8; 64];
    let number = number_of(row_number(store, &first, row_of(table, place)));
    let part = row_part(store, &mut first, row_of(table, place));
    let plain = plain_place(area, &mut second, row_of(table, place));
    match plain {
        Place::Store(_, _) => false,
        Place::Scratch(bytes) => number == 0 && shows(part, &second, bytes),
        Place::Refused(why) => number == number_of(Answer::Refused(why)),
    }
}

// The first place of a table, from one place to another, where the engines differ.
fn differing(store: &[u8], area: &[u8], table: u32, start: u32, end: u32) -> Option<u32> {
    (start..end).find(|place| !same_row(store, area, table, *place))
}

// The name of a row: its table and its place.
fn name<W: Write>(out: &mut W, table: u32, place: u32) -> io::Result<()> {
    text(out, b"row ")?;
    decimal(out, table)?;
    text(out, b" ")?;
    decimal(out, place)
}

// A line for the first row in which the engines differ; none where they do not.
pub(crate) fn compare<W: Write>(out: &mut W, store: &[u8], area: &[u8]) -> io::Result<()> {
    for (table, start, end) in &PLACES {
        if let Some(place) = differing(store, area, *table, *start, *end) {
            name(out, *table, place)?;
            return text(out, b" differs\n");
        }
    }
    Ok(())
}

// A line for a row of the plain engine that is there: its name and its bytes.
fn show_row<W: Write>(out: &mut W, area: &[u8], table: u32, place: u32) -> io::Result<()> {
    let mut scratch = [0u8; 64];
    let answer = plain_place(area, &mut scratch, row_of(table, place));
    match answer {
        Place::Scratch(bytes) => {
            name(out, table, place)?;
            text(out, b":")?;
            hex(out, &scratch, bytes)?;
            text(out, b"\n")
        }
        _ => text(out, b""),
    }
}

// The rows of a table of the plain engine, from one place to another.
fn show_table<W: Write>(
    out: &mut W,
    area: &[u8],
    table: u32,
    start: u32,
    end: u32,
) -> io::Result<()> {
    for place in start..end {
        show_row(out, area, table, place)?;
    }
    Ok(())
}

// A line with what the plain engine answers for a row of no table: 17, or 11 where it has no area.
fn show_number<W: Write>(out: &mut W, area: &[u8]) -> io::Result<()> {
    let scratch = [0u8; 64];
    text(out, b"rows ")?;
    decimal(out, number_of(plain_number(area, &scratch, row_of(9, 0))))?;
    text(out, b"\n")
}

// That line, and one for each row of the plain engine that is there.
pub(crate) fn show<W: Write>(out: &mut W, area: &[u8]) -> io::Result<()> {
    show_number(out, area)?;
    for (table, start, end) in &PLACES {
        show_table(out, area, *table, *start, *end)?;
    }
    Ok(())
}
