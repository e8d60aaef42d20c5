// Proposed updates: which requests make one store's tables another's, what is proposed where those of a single part differ, and refusals.
use case_answers::moving::move_part;
use case_lines::sets::Set;
use case_lines::showing::{decimal, hex, text};
use case_lines::taking::{answer, requests};
use export::parts::PARTS;
use slots::bytes::copy;
use std::io;
use std::io::Write;
use tables::limits::HANDHELD_SIZE;
use updating::answers::{Check, Proposal};
use updating::handheld::{check, propose};

// The line of a request: is it an update?
fn checked<W: Write>(
    out: &mut W,
    what: &[u8],
    first: &[u8],
    second: &[u8],
    message: &[u8],
) -> io::Result<()> {
    text(out, what)?;
    let answer = check(first, second, message);
    match answer {
        Check::Yes => text(out, b": yes\n"),
        Check::No => text(out, b": no\n"),
        Check::FirstNotAStore => text(out, b": 11, the first\n"),
        Check::SecondNotAStore => text(out, b": 11, the second\n"),
    }
}

fn written<W: Write>(out: &mut W, first: &[u8], second: &[u8], request: &[u8]) -> io::Result<()> {
    text(out, b": 0, length ")?;
    decimal(out, (request.len() % 65536) as u32)?;
    checked(out, b", an update", first, second, request)
}

// Why nothing is proposed, and the bytes at the buffer's start.
fn refused<W: Write>(out: &mut W, why: &[u8], buffer: &[u8]) -> io::Result<()> {
    text(out, why)?;
    text(out, b", buffer")?;
    hex(out, buffer, 2)
}

// The line of what is proposed, and what the check says of it.
fn proposed_in<W: Write>(
    out: &mut W,
    what: &[u8],
    first: &[u8],
    second: &[u8],
    buffer: &mut [u8],
) -> io::Result<()> {
    text(out, what)?;
    let proposal = propose(first, second, buffer);
    match proposal {
        Proposal::Written(length) => {
            if length <= buffer.len() {
                written(out, first, second, &buffer[0..length])?;
            }
            Ok(())
        }
        Proposal::FirstNotAStore => refused(out, b": 11, the first", buffer),
        Proposal::SecondNotAStore => refused(out, b": 11, the second", buffer),
        Proposal::Buffer => refused(out, b": 15", buffer),
        Proposal::NoSinglePart => refused(out, b": 19", buffer),
    }
}

fn proposed<W: Write>(out: &mut W, what: &[u8], first: &[u8], second: &[u8]) -> io::Result<()> {
    let mut buffer = [0xEEu8; 4096];
    proposed_in(out, what, first, second, &mut buffer)
}

fn checks<W: Write>(out: &mut W, first: &[u8], second: &[u8]) -> io::Result<()> {
    checked(
        out,
        b"one line more",
        first,
        second,
        b"\x02\x02\x00\x0D\x08\x07\x08\x01\xCA\x00\x08\x40\x01\x12\xFF\x00\x00",
    )?;
    checked(
        out,
        b"the same with another hash",
        first,
        second,
        b"\x02\x02\x00\x15\x08\x07\x08\x02\xCA\x00\x08\x40\x01\x12\xFF\x00\x00\xFF\x00\x07\x01\x05\x06\x07\x08",
    )?;
    checked(
        out,
        b"two lines more",
        first,
        second,
        b"\x02\x02\x00\x11\x08\x07\x08\x01\xCA\x00\x0C\x40\x02\x12\xFF\x00\x00\x13\xFF\x00\x00",
    )?;
    checked(
        out,
        b"the line, and then operation 00",
        first,
        second,
        b"\x02\x02\x00\x12\x08\x07\x08\x02\xCA\x00\x08\x40\x01\x12\xFF\x00\x00\xCA\x00\x04\x00\x00",
    )?;
    checked(out, b"neither is a store", b"", b"", b"")?;
    checked(out, b"the second is none", first, b"", b"")
}

// A line more, from a store that keeps a hash.
fn one_line<W: Write>(out: &mut W, first: &mut [u8], second: &mut [u8]) -> io::Result<()> {
    requests(
        out,
        b"a fresh store\nhash of code 1: 01 FF 0007 01 01020304\n",
        first,
    )?;
    requests(
        out,
        b"a fresh store\nline 12: 01 CA 0008 40 01 12FF 0000\n",
        second,
    )?;
    checks(out, first, second)
}

// Equal tables: a query that matches is no update, and an empty replace is one.
fn equal<W: Write>(out: &mut W, first: &mut [u8], second: &mut [u8]) -> io::Result<()> {
    requests(out, b"a fresh store\n", second)?;
    let query = *b"\x02\x02\x00\x08\x08\x00\x0D\x01\x01\x02\x03\x04";
    answer(out, b"a query for the kept hash", &query, first)?;
    checked(
        out,
        b"that query, where the tables are equal",
        first,
        second,
        &query,
    )?;
    checked(
        out,
        b"an empty replace, where they are empty",
        first,
        second,
        b"\x02\x02\x00\x09\x08\x07\x08\x01\xCA\x00\x04\xC0\x00",
    )
}

fn refusals<W: Write>(
    out: &mut W,
    first: &[u8],
    same: &[u8],
    other: &[u8],
    buffer: &mut [u8],
) -> io::Result<()> {
    proposed_in(out, b"neither is a store", b"", b"", buffer)?;
    proposed_in(out, b"the second is none", first, b"", buffer)?;
    proposed_in(out, b"equal tables", first, same, buffer)?;
    proposed_in(out, b"two parts differ", first, other, buffer)
}

// The same with a buffer that is long enough, and with one that is not.
fn buffers<W: Write>(out: &mut W, first: &[u8], same: &[u8], other: &mut [u8]) -> io::Result<()> {
    requests(out, b"a channel: 01 CE 0006 4001 0F1 F\n", other)?;
    let mut buffer = [0xEEu8; 4096];
    refusals(out, first, same, other, &mut buffer)?;
    refusals(out, first, same, other, &mut buffer[0..4095])
}

// Each part in turn, which one store gets of a set and the other does not have yet.
fn neighbours<W: Write>(
    out: &mut W,
    set: &[u8],
    first: &mut [u8],
    second: &mut [u8],
) -> io::Result<()> {
    for part in 1..=PARTS {
        move_part(out, Set::Handheld, Set::Handheld, part, set, second)?;
        proposed(out, b"  proposed", first, second)?;
        copy(first, second);
    }
    Ok(())
}

// With a full area a slot may not grow before a later one shrinks.
fn full_area<W: Write>(out: &mut W, first: &mut [u8], second: &mut [u8]) -> io::Result<()> {
    requests(
        out,
        b"a fresh store\n\
        96 status texts of 16 units: 01 D0 0D24 C0 60 {60 x $ 0041004100410041004100410041004100410041004100410041004100410041 0000}\n\
        31 lines of 16 units: 01 CA 0460 C0 1F {1F x % FF 0041004100410041004100410041004100410041004100410041004100410041 0000}\n\
        group slot 1 of 16 units, which makes 4096 bytes: 01 D1 0029 60 01 100001 {10 x 0041} 0000\n",
        first,
    )?;
    copy(second, first);
    requests(
        out,
        b"slot 1 deleted, then slot 0 of 16 units: 02 D1 0009 80 01 000000 0000 D1 0029 60 00 100001 {10 x 0041} 0000\n",
        second,
    )?;
    proposed(out, b"slot 0 shrinks, then slot 1 grows", second, first)?;
    proposed(out, b"slot 0 grows, then slot 1 shrinks", first, second)?;
    move_part(out, Set::Handheld, Set::Handheld, 6, second, first)
}

// A set with something in every part.
fn every_part<W: Write>(
    out: &mut W,
    first: &mut [u8],
    second: &mut [u8],
    set: &mut [u8],
) -> io::Result<()> {
    requests(
        out,
        b"a fresh store\n\
        all ten parts: 0C CA 000A 40 01 12FF 0041 0000 CB 0006 68 100001 CD 0005 07E4C0 CF 0005 ABC8A0 CC 0008 41 05 0041 0000 CE 0007 4002 0F1 280 \
        D0 0009 40 01 21 0042 0000 D1 000B 60 03 100001 0041 0000 D2 000B 40 03 100001 0041 0000 C8 000C 60 00 01 100001 0041 0000 \
        C9 000B 40 01 100001 0041 0000 D3 000A 40 03 12FF 0041 0000\n",
        set,
    )?;
    neighbours(out, set, first, second)
}

pub(crate) fn run<W: Write>(out: &mut W, first: &mut [u8]) -> io::Result<()> {
    let mut second = [0u8; HANDHELD_SIZE];
    let mut other = [0u8; HANDHELD_SIZE];
    one_line(out, first, &mut other)?;
    equal(out, first, &mut second)?;
    buffers(out, first, &second, &mut other)?;
    every_part(out, first, &mut second, &mut other)?;
    full_area(out, first, &mut second)
}
