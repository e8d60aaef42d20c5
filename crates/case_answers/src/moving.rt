// Moves tables from one set to another: each part exported by the one and taken by the other, a line each.
use super::count_lines::held;
use case_lines::sets::Set;
use case_lines::showing::{decimal, text, yes_or_no};
use case_lines::taking::answer_for;
use export::parts::{NoExport, PARTS};
use std::io;
use std::io::Write;

pub fn export_of(set: Set, part: u32, store: &[u8], buffer: &mut [u8]) -> Result<usize, NoExport> {
    match set {
        Set::Handheld => export::handheld::export(part, store, buffer),
        Set::Vehicle => export::vehicle::export(part, store, buffer),
    }
}

// Whether a set's part is exported as these bytes.
fn is_exported(set: Set, part: u32, request: &[u8], store: &[u8], buffer: &mut [u8]) -> bool {
    let written = export_of(set, part, store, buffer);
    let Ok(length) = written else {
        return false;
    };
    if buffer.len() < length {
        return false;
    }
    request == &buffer[0..length]
}

// A part's line, and whether the set that was sent it exports it the same.
fn send<W: Write>(
    out: &mut W,
    set: Set,
    part: u32,
    request: &[u8],
    to: &mut [u8],
) -> io::Result<()> {
    text(out, b"part ")?;
    decimal(out, part)?;
    text(out, b" of ")?;
    decimal(out, (request.len() % 65536) as u32)?;
    answer_for(out, set, b" bytes", request, to)?;
    let mut buffer = [0u8; 8192];
    let again = is_exported(set, part, request, to, &mut buffer);
    yes_or_no(out, b"  exported again as the same bytes:", again)?;
    text(out, b"\n")
}

// Exports a part into this buffer, and sends it.
fn move_by<W: Write>(
    out: &mut W,
    sender: Set,
    taker: Set,
    part: u32,
    from: &[u8],
    to: &mut [u8],
    buffer: &mut [u8],
) -> io::Result<()> {
    let written = export_of(sender, part, from, buffer);
    let Ok(length) = written else {
        return Ok(());
    };
    if buffer.len() < length {
        return Ok(());
    }
    send(out, taker, part, &buffer[0..length], to)
}

pub fn move_part<W: Write>(
    out: &mut W,
    sender: Set,
    taker: Set,
    part: u32,
    from: &[u8],
    to: &mut [u8],
) -> io::Result<()> {
    let mut buffer = [0u8; 8192];
    move_by(out, sender, taker, part, from, to, &mut buffer)
}

// All parts in order.
fn move_parts<W: Write>(
    out: &mut W,
    sender: Set,
    taker: Set,
    from: &[u8],
    to: &mut [u8],
) -> io::Result<()> {
    for part in 1..=PARTS {
        move_part(out, sender, taker, part, from, to)?;
    }
    Ok(())
}

// All parts, and the counts after them.
pub fn move_all<W: Write>(
    out: &mut W,
    sender: Set,
    taker: Set,
    from: &[u8],
    to: &mut [u8],
) -> io::Result<()> {
    move_parts(out, sender, taker, from, to)?;
    held(out, taker, to)
}
