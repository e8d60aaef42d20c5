// What a set reports, and what the office reads of it.
use case_lines::building::put_bytes;
use case_lines::sets::Set;
use case_lines::showing::{decimal, hex, text};
use report_reading::messages::ReportRead;
use reporting::answers::{NoReport, Written};
use std::io;
use std::io::Write;

// The most bytes of a message that are shown.
const SHOWN: usize = 34;

// How many bytes a query of 255 types has.
const QUERY: usize = 263;

fn number_of(why: NoReport) -> u32 {
    match why {
        NoReport::Buffer => 15,
        NoReport::NotAStore => 11,
        NoReport::Size => 12,
        NoReport::Carrier => 13,
        NoReport::OtherType => 14,
        NoReport::Version => 1,
        NoReport::BadQuery => 4,
        NoReport::NoMessage => 16,
    }
}

fn field<W: Write>(out: &mut W, name: &[u8], value: u32) -> io::Result<()> {
    text(out, name)?;
    decimal(out, value)
}

fn report(
    set: Set,
    query: &[u8],
    index: u32,
    store: &[u8],
    buffer: &mut [u8],
) -> Result<Written, NoReport> {
    match set {
        Set::Handheld => reporting::handheld::report(query, index, store, buffer),
        Set::Vehicle => reporting::vehicle::report(query, index, store, buffer),
    }
}

fn read_report(set: Set, message: &[u8]) -> ReportRead {
    match set {
        Set::Handheld => report_reading::handheld::read_report(message),
        Set::Vehicle => report_reading::vehicle::read_report(message),
    }
}

// What the office reads of a message.
fn read<W: Write>(out: &mut W, set: Set, message: &[u8]) -> io::Result<()> {
    let answer = read_report(set, message);
    match answer {
        ReportRead::Report(total, index, count) => {
            field(out, b"  read: message ", index as u32)?;
            field(out, b" of ", total as u32)?;
            field(out, b", parameters ", count as u32)?;
        }
        _ => text(out, b"  not read")?,
    }
    text(out, b"\n")
}

// The first bytes of a message, and what is read of it.
fn show<W: Write>(out: &mut W, set: Set, message: &[u8]) -> io::Result<()> {
    hex(out, message, SHOWN.min(message.len()))?;
    read(out, set, message)
}

// A message's line: its number, the total, the length, and the bytes at the buffer's start.
pub fn ask<W: Write>(
    out: &mut W,
    set: Set,
    query: &[u8],
    index: u32,
    store: &[u8],
    buffer: &mut [u8],
) -> io::Result<()> {
    field(out, b"  index ", index)?;
    let answer = report(set, query, index, store, buffer);
    match answer {
        Ok(Written { total, length }) => {
            field(out, b": 0, total ", total as u32)?;
            field(out, b", length ", (length % 65536) as u32)?;
            text(out, b",")?;
            if length <= buffer.len() {
                show(out, set, &buffer[0..length])?;
            }
            Ok(())
        }
        Err(why) => {
            field(out, b": ", number_of(why))?;
            text(out, b", buffer")?;
            hex(out, buffer, 2)
        }
    }
}

// The line of a message that answers a query of these types, at most 255.
pub fn asked<W: Write>(
    out: &mut W,
    set: Set,
    types: &[u8],
    index: u32,
    store: &[u8],
    buffer: &mut [u8],
) -> io::Result<()> {
    let size = types.len();
    if 255 < size {
        return Ok(());
    }
    let [high, low] = ((4 + size) as u16).to_be_bytes();
    let head = [2, 2, high, low, 8, 0, 0x0A, size as u8];
    let mut query = [0u8; QUERY];
    let at = put_bytes(&mut query, 0, &head);
    let end = put_bytes(&mut query, at, types);
    ask(out, set, &query[0..end], index, store, buffer)
}
