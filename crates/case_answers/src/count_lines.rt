// How many lines and channels a store holds.
use case_lines::sets::Set;
use case_lines::showing::{decimal, text};
use menu::counting::Counts;
use std::io;
use std::io::Write;

fn tell<W: Write>(out: &mut W, number: u32, lines: u32, channels: u32) -> io::Result<()> {
    text(out, b"  counts: ")?;
    decimal(out, number)?;
    text(out, b", lines ")?;
    decimal(out, lines)?;
    text(out, b", channels ")?;
    decimal(out, channels)?;
    text(out, b"\n")
}

fn counts(set: Set, store: &[u8]) -> Option<Counts> {
    match set {
        Set::Handheld => menu::handheld::counts(store),
        Set::Vehicle => menu::vehicle::counts(store),
    }
}

// The counts' line.
pub fn held<W: Write>(out: &mut W, set: Set, store: &[u8]) -> io::Result<()> {
    let answer = counts(set, store);
    match answer {
        Some(held) => tell(out, 0, held.lines as u32, held.channels as u32),
        None => tell(out, 11, 0, 0),
    }
}
