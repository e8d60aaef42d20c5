// Sizes by which a vehicle set goes: of its store, and of the buffers for an export and a report.
use case_answers::count_lines::held;
use case_answers::moving::export_of;
use case_answers::report_lines::asked;
use case_lines::sets::{Set, start};
use case_lines::showing::{decimal, started, text};
use case_lines::taking::answer_for;
use export::parts::NoExport;
use std::io;
use std::io::Write;

// A request that is taken: the emergency key calls the current place by voice.
const KEY: [u8; 12] = *b"\x02\x02\x00\x08\x08\x07\x08\x01\xCB\x00\x03\xA0";

fn number_of(why: NoExport) -> u32 {
    match why {
        NoExport::Buffer => 15,
        NoExport::NotAStore => 11,
        NoExport::NoPart => 16,
    }
}

// The line of an export: its number, and its length.
fn exported<W: Write>(out: &mut W, what: &[u8], store: &[u8], buffer: &mut [u8]) -> io::Result<()> {
    text(out, what)?;
    let answer = export_of(Set::Vehicle, 1, store, buffer);
    match answer {
        Ok(length) => {
            text(out, b": 0, length ")?;
            decimal(out, (length % 65536) as u32)?;
        }
        Err(why) => {
            text(out, b": ")?;
            decimal(out, number_of(why))?;
        }
    }
    text(out, b"\n")
}

fn own<W: Write>(out: &mut W, store: &mut [u8]) -> io::Result<()> {
    started(
        out,
        b"a vehicle's start of 49152 bytes",
        start(Set::Vehicle, store),
    )?;
    answer_for(out, Set::Vehicle, b"a vehicle's store", &KEY, store)?;
    answer_for(
        out,
        Set::Handheld,
        b"a vehicle's store, lent to a hand-held",
        &KEY,
        store,
    )
}

fn lent<W: Write>(out: &mut W, other: &mut [u8]) -> io::Result<()> {
    started(
        out,
        b"a vehicle's start of 24576 bytes",
        start(Set::Vehicle, other),
    )?;
    started(
        out,
        b"a hand-held's start of 24576 bytes",
        start(Set::Handheld, other),
    )?;
    answer_for(
        out,
        Set::Vehicle,
        b"a hand-held's store, lent to a vehicle",
        &KEY,
        other,
    )?;
    held(out, Set::Vehicle, other)
}

fn buffers<W: Write>(out: &mut W, store: &[u8]) -> io::Result<()> {
    let mut small = [0xEEu8; 8191];
    exported(out, b"export buffer of 8191 bytes", store, &mut small)?;
    text(out, b"report buffer of 8191 bytes\n")?;
    asked(out, Set::Vehicle, &[0xCB], 1, store, &mut small)
}

fn enough<W: Write>(out: &mut W, store: &[u8], other: &[u8]) -> io::Result<()> {
    let mut buffer = [0xEEu8; 8192];
    exported(out, b"export buffer of 8192 bytes", store, &mut buffer)?;
    exported(
        out,
        b"the same, and a hand-held's store",
        other,
        &mut buffer,
    )?;
    text(out, b"report buffer of 8192 bytes\n")?;
    asked(out, Set::Vehicle, &[0xCB], 1, store, &mut buffer)
}

pub(crate) fn run<W: Write>(out: &mut W, store: &mut [u8], other: &mut [u8]) -> io::Result<()> {
    own(out, store)?;
    lent(out, other)?;
    buffers(out, store)?;
    enough(out, store, other)
}
