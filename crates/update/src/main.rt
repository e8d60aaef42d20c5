// Checks proposed updates. The first ten records on standard input are taken by a hand-held, from a fresh store, and the next ten by another: what a set holds, and what it should hold.
// It prints what is proposed for the two, and for each record behind them whether its request makes the first's tables the second's: yes, no, or the number of a refusal.
// One of the twenty that is refused has a line and leaves its set as it was; a record that is cut short, or missing among the twenty, is a line `cut`, and the program stops.
#![tactic(auto)]

use export::parts::PARTS;
use printing::output::{decimal, hex, text};
use records::{Record, read_record};
use station::answers::number;
use station::handheld::{commit, start};
use std::io;
use std::io::{Read, Write};
use tables::limits::HANDHELD_SIZE;
use updating::answers::{Check, Proposal};
use updating::handheld::{check, propose};

// The line of a request that a set refuses: the set, the record's kind and the number.
fn refusal<W: Write>(out: &mut W, set: &[u8], kind: u16, number: u8) -> io::Result<()> {
    if number == 0 {
        return Ok(());
    }
    text(out, set)?;
    text(out, b" set, kind ")?;
    decimal(out, kind)?;
    text(out, b": refused ")?;
    decimal(out, number)?;
    text(out, b"\n")
}

// Takes a message of a set: its number.
fn take(message: &[u8], store: &mut [u8]) -> u8 {
    let mut reply = [0u8; 20];
    number(commit(message, store, &mut reply))
}

// Takes the next record of a set: is it there?
fn take_record<R: Read, W: Write>(
    input: &mut R,
    out: &mut W,
    set: &[u8],
    buffer: &mut [u8],
    store: &mut [u8],
) -> io::Result<bool> {
    let (kind, number) = match read_record(input, buffer)? {
        None | Some(Record::Cut) => return Ok(false),
        Some(Record::TooLong(kind)) => (kind, 12),
        Some(Record::Whole(kind, length)) => (kind, take(&buffer[0..length], store)),
    };
    refusal(out, set, kind, number)?;
    Ok(true)
}

// Takes all records of a set, from a fresh store: are they all there?
fn take_set<R: Read, W: Write>(
    input: &mut R,
    out: &mut W,
    set: &[u8],
    buffer: &mut [u8],
    store: &mut [u8],
) -> io::Result<bool> {
    start(store);
    for _ in 0..PARTS {
        if !take_record(input, out, set, buffer, store)? {
            text(out, b"cut\n")?;
            return Ok(false);
        }
    }
    Ok(true)
}

// The line of what is proposed: its number, and the request's bytes.
fn show_proposal<W: Write>(
    out: &mut W,
    first: &[u8],
    second: &[u8],
    buffer: &mut [u8],
) -> io::Result<()> {
    text(out, b"proposal: ")?;
    let proposal = propose(first, second, buffer);
    match proposal {
        Proposal::Written(length) => {
            text(out, b"0,")?;
            hex(out, buffer, length)?;
        }
        Proposal::FirstNotAStore => decimal(out, 11)?,
        Proposal::SecondNotAStore => decimal(out, 11)?,
        Proposal::Buffer => decimal(out, 15)?,
        Proposal::NoSinglePart => decimal(out, 19)?,
    }
    text(out, b"\n")
}

// The line of a proposed request.
fn show_check<W: Write>(
    out: &mut W,
    first: &[u8],
    second: &[u8],
    message: &[u8],
) -> io::Result<()> {
    let answer = check(first, second, message);
    match answer {
        Check::Yes => text(out, b"yes\n"),
        Check::No => text(out, b"no\n"),
        Check::FirstNotAStore => text(out, b"11\n"),
        Check::SecondNotAStore => text(out, b"11\n"),
    }
}

// What is proposed, and each record behind the sets'.
fn answer_all<R: Read, W: Write>(
    input: &mut R,
    out: &mut W,
    first: &[u8],
    second: &[u8],
    buffer: &mut [u8],
) -> io::Result<()> {
    show_proposal(out, first, second, buffer)?;
    for _ in 0..u64::MAX {
        match read_record(input, buffer)? {
            Some(Record::Whole(_, length)) => show_check(out, first, second, &buffer[0..length])?,
            Some(Record::TooLong(_)) => text(out, b"no\n")?,
            Some(Record::Cut) => return text(out, b"cut\n"),
            None => return Ok(()),
        }
    }
    Ok(())
}

fn main(rt: HostRuntime) -> io::Result<()> {
    let mut input = rt.reader();
    let mut out = rt.stdout();
    let mut buffer = [0u8; 4096];
    let mut first = [0u8; HANDHELD_SIZE];
    let mut second = [0u8; HANDHELD_SIZE];
    if take_set(&mut input, &mut out, b"first", &mut buffer, &mut first)?
        && take_set(&mut input, &mut out, b"second", &mut buffer, &mut second)?
    {
        answer_all(&mut input, &mut out, &first, &second, &mut buffer)?;
    }
    out.flush()
}
