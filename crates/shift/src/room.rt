// How much of the room for lines and channels is taken, on one line.
use menu::handheld::counts;
use printing::output::{decimal, text};
use std::io;
use std::io::Write;
use tables::limits::HANDHELD;

// So many of so many.
fn taken<W: Write>(out: &mut W, what: &[u8], held: u16, room: usize) -> io::Result<()> {
    text(out, what)?;
    decimal(out, held)?;
    text(out, b" of ")?;
    decimal(out, room)
}

pub(crate) fn room<W: Write>(out: &mut W, store: &[u8]) -> io::Result<()> {
    let answer = counts(store);
    let limits = HANDHELD;
    match answer {
        Some(held) => {
            taken(
                out,
                b"  room                 lines ",
                held.lines,
                limits.lines,
            )?;
            taken(out, b", channels ", held.channels, limits.channels)?;
            text(out, b"\n")
        }
        None => text(out, b"  no store\n"),
    }
}
