// Takes the messages of cases and prints their lines.
use super::building::{put_bytes, put_message};
use super::sets::{Set, commit, judge, start};
use super::showing::line;
use station::answers::{Answer, number};
use std::io;
use std::io::Write;
use tables::limits::VEHICLE_SIZE;

// A byte more than the largest message of any set.
const MOST: usize = 8193;

// What is done with a message: one of the calls, or both. A closure in its place would be no plainer: each case would write the call's four arguments out.
#[derive(Clone, Copy)]
pub enum Call {
    Judge,
    Commit,
    Take,
}

// How the messages of lines are written: whole, or as ParamSum and settings.
#[derive(Clone, Copy)]
enum Form {
    Whole,
    ParamSum,
}

// Judges a message, and commits it where it is good: what committing answers then, and what judging does where it is not.
fn take(set: Set, message: &[u8], store: &mut [u8], reply: &mut [u8]) -> Answer {
    let answer = judge(set, message, store, reply);
    if number(answer) != 0 {
        return answer;
    }
    commit(set, message, store, reply)
}

fn answer_of(set: Set, call: Call, bytes: &[u8], store: &mut [u8], reply: &mut [u8]) -> Answer {
    match call {
        Call::Judge => judge(set, bytes, store, reply),
        Call::Commit => commit(set, bytes, store, reply),
        Call::Take => take(set, bytes, store, reply),
    }
}

// A call of a set with this store, which has at most the bytes of a vehicle's, and this reply buffer.
pub fn call_for<W: Write>(
    out: &mut W,
    set: Set,
    call: Call,
    what: &[u8],
    bytes: &[u8],
    store: &mut [u8],
    reply: &mut [u8],
) -> io::Result<()> {
    let size = store.len();
    if VEHICLE_SIZE < size {
        return Ok(());
    }
    let mut kept = [0u8; VEHICLE_SIZE];
    let before = &mut kept[0..size];
    before.copy_from_slice(store);
    let answer = answer_of(set, call, bytes, store, reply);
    line(out, what, answer, *before == *store, reply)
}

// A message to this store of a hand-held, with this reply buffer.
pub fn answer_into<W: Write>(
    out: &mut W,
    what: &[u8],
    bytes: &[u8],
    store: &mut [u8],
    reply: &mut [u8],
) -> io::Result<()> {
    call_for(out, Set::Handheld, Call::Take, what, bytes, store, reply)
}

// A message to this store of a set, with a reply buffer of 20 bytes.
pub fn answer_for<W: Write>(
    out: &mut W,
    set: Set,
    what: &[u8],
    bytes: &[u8],
    store: &mut [u8],
) -> io::Result<()> {
    let mut reply = [0u8; 20];
    call_for(out, set, Call::Take, what, bytes, store, &mut reply)
}

// The same of a hand-held.
pub fn answer<W: Write>(
    out: &mut W,
    what: &[u8],
    bytes: &[u8],
    store: &mut [u8],
) -> io::Result<()> {
    answer_for(out, Set::Handheld, what, bytes, store)
}

// A request to this store: ParamSum and settings, behind a carrier with the true length.
fn request<W: Write>(
    out: &mut W,
    set: Set,
    what: &[u8],
    settings: &[u8],
    store: &mut [u8],
) -> io::Result<()> {
    let size = settings.len();
    if MOST - 7 < size {
        return Ok(());
    }
    let [high, low] = ((3 + size) as u16).to_be_bytes();
    let head = [2, 2, high, low, 8, 7, 8];
    let mut bytes = [0u8; MOST];
    let at = put_bytes(&mut bytes, 0, &head);
    let end = put_bytes(&mut bytes, at, settings);
    answer_for(out, set, what, &bytes[0..end], store)
}

// A message that is written in digits.
fn written<W: Write>(
    out: &mut W,
    set: Set,
    what: &[u8],
    digits: &[u8],
    form: Form,
    store: &mut [u8],
) -> io::Result<()> {
    let mut bytes = [0u8; MOST];
    let end = put_message(&mut bytes, digits);
    match form {
        Form::Whole => answer_for(out, set, what, &bytes[0..end], store),
        Form::ParamSum => request(out, set, what, &bytes[0..end], store),
    }
}

// The case of a line: what it is, a colon, and the message in digits. A line without a colon makes the store a fresh one.
fn take_line<W: Write>(
    out: &mut W,
    set: Set,
    line: &[u8],
    form: Form,
    store: &mut [u8],
) -> io::Result<()> {
    let Some(colon) = line.iter().position(|b| *b == b':') else {
        start(set, store);
        return Ok(());
    };
    written(out, set, &line[..colon], &line[colon..], form, store)
}

// The case of each line.
fn each<W: Write>(
    out: &mut W,
    set: Set,
    lines: &[u8],
    form: Form,
    store: &mut [u8],
) -> io::Result<()> {
    for ended in lines.split_inclusive(|b| *b == b'\n') {
        let line = ended.strip_suffix(b"\n").unwrap_or(ended);
        take_line(out, set, line, form, store)?;
    }
    Ok(())
}

// Whole messages to a hand-held, one to a line.
pub fn messages<W: Write>(out: &mut W, lines: &[u8], store: &mut [u8]) -> io::Result<()> {
    each(out, Set::Handheld, lines, Form::Whole, store)
}

// ParamSums with their settings, one to a line.
pub fn requests_for<W: Write>(
    out: &mut W,
    set: Set,
    lines: &[u8],
    store: &mut [u8],
) -> io::Result<()> {
    each(out, set, lines, Form::ParamSum, store)
}

// The same to a hand-held.
pub fn requests<W: Write>(out: &mut W, lines: &[u8], store: &mut [u8]) -> io::Result<()> {
    requests_for(out, Set::Handheld, lines, store)
}
