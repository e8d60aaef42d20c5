// What the parameters have in common: numbers and flags behind a word, texts, digits and runs of bytes.
use printing::output::{decimal, hex_pair, text};
use printing::utf8::show_text;
use read_fields::bytes::number;
use read_fields::numbers::NumberPlace;
use read_fields::texts::TextPlace;
use std::fmt::Display;
use std::io;
use std::io::Write;

// A number behind a word.
pub(crate) fn labelled<W: Write, N: Display + Drop>(
    out: &mut W,
    label: &[u8],
    n: N,
) -> io::Result<()> {
    text(out, label)?;
    decimal(out, n)
}

// What a parameter is and its index or code.
pub(crate) fn head<W: Write, N: Display + Drop>(out: &mut W, what: &[u8], n: N) -> io::Result<()> {
    labelled(out, what, n)?;
    text(out, b": ")
}

// A flag behind a word, as 0 or 1.
pub(crate) fn flag<W: Write>(out: &mut W, label: &[u8], set: bool) -> io::Result<()> {
    labelled(out, label, u8::from(set))
}

// The units of a text; none where they would not stand in the message, which is so of no text that was read.
fn units_of(m: &[u8], place: TextPlace) -> &[u8] {
    let start = place.start;
    let units = place.units;
    if m.len() < start || (m.len() - start) / 2 < units {
        return b"";
    }
    let end = start + units * 2;
    &m[start..end]
}

// A text in quotes.
pub(crate) fn quoted<W: Write>(out: &mut W, m: &[u8], place: TextPlace) -> io::Result<()> {
    text(out, b"\"")?;
    show_text(out, units_of(m, place))?;
    text(out, b"\"")
}

// Two hexadecimal digits for each of so many bytes: the place behind them.
pub(crate) fn hex_run<W: Write>(
    out: &mut W,
    m: &[u8],
    start: usize,
    count: usize,
) -> io::Result<usize> {
    let rest = m.get(start..).unwrap_or(b"");
    let bytes = &rest[..count.min(rest.len())];
    for b in bytes {
        hex_pair(out, *b)?;
    }
    Ok(start + bytes.len())
}

// A number's digits, two in a byte; of the last byte of an odd number only the first.
pub(crate) fn digits<W: Write>(out: &mut W, m: &[u8], place: NumberPlace) -> io::Result<()> {
    let count = place.digits;
    let end = hex_run(out, m, place.start, count / 2)?;
    if count % 2 == 1 {
        decimal(out, number(m, end, 1) / 16)?;
    }
    Ok(())
}
