// Dialled numbers and channels.
use case_lines::showing::{decimal, text};
use std::io;
use std::io::Write;

fn line<W: Write>(out: &mut W, what: &[u8], input: u32, number: u32, value: u32) -> io::Result<()> {
    text(out, what)?;
    text(out, b" ")?;
    decimal(out, input)?;
    text(out, b": ")?;
    decimal(out, number)?;
    text(out, b", value ")?;
    decimal(out, value)?;
    text(out, b"\n")
}

fn individual<W: Write>(out: &mut W, dialled: u32) -> io::Result<()> {
    match plan::numbers::individual_of_dialled(dialled) {
        Some(a) => line(out, b"individual address of", dialled, 0, a.0),
        None => line(out, b"individual address of", dialled, 20, 0),
    }
}

fn transmit<W: Write>(out: &mut W, channel: u32) -> io::Result<()> {
    match plan::channels::transmit(channel) {
        Some(f) => line(out, b"transmit frequency of", channel, 0, f.0),
        None => line(out, b"transmit frequency of", channel, 22, 0),
    }
}

pub(crate) fn run<W: Write>(out: &mut W) -> io::Result<()> {
    individual(out, 32819200)?;
    individual(out, 32842550)?;
    transmit(out, 0)?;
    transmit(out, 641)
}
