// What stands behind a row, in parentheses: an address in six hexadecimal digits, or a line's IDtype and digits.
use printing::output::{address, decimal, text};
use screen::rows::row_of;
use std::io;
use std::io::Write;
use values::answers::Target;
use values::handheld::{entry, entry_digits};

// The first digits, as many as are counted.
fn digits<W: Write>(out: &mut W, buffer: &[u8], count: usize) -> io::Result<()> {
    for digit in &buffer[..count.min(buffer.len())] {
        decimal(out, *digit)?;
    }
    Ok(())
}

// A line's IDtype and digits.
fn line<W: Write>(out: &mut W, store: &[u8], table: u32, place: u32, pabx: bool) -> io::Result<()> {
    if pabx {
        text(out, b"PABX ")?;
    } else {
        text(out, b"PSTN ")?;
    }
    let mut buffer = [0u8; 18];
    let answer = entry_digits(row_of(table, place), store, &mut buffer);
    match answer {
        Ok(count) => digits(out, &buffer, count),
        Err(_) => text(out, b"none"),
    }
}

fn target<W: Write>(
    out: &mut W,
    store: &[u8],
    table: u32,
    place: u32,
    behind: Target,
) -> io::Result<()> {
    text(out, b" (")?;
    match behind {
        Target::Line(flags) => line(out, store, table, place, flags.pabx)?,
        Target::Group(_, a) => address(out, a.0)?,
        Target::Individual(_, a) => address(out, a.0)?,
    }
    text(out, b")")
}

// Quick texts and status texts have nothing behind them.
pub(crate) fn behind<W: Write>(
    out: &mut W,
    store: &[u8],
    table: u32,
    place: u32,
) -> io::Result<()> {
    let answer = entry(row_of(table, place), store);
    match answer {
        Ok(x) => target(out, store, table, place, x),
        Err(_) => Ok(()),
    }
}
