// A shift: takes the messages of the records on standard input, from a fresh store, and prints what each comes to and what the set shows after it.
#![tactic(auto)]

mod behind;
mod call;
mod messages;
mod room;
mod rows;

use call::call;
use messages::tell;
use printing::output::text;
use records::{Record, read_record};
use room::room;
use rows::rows;
use station::answers::{Answer, Refusal, number};
use station::handheld::{commit, judge, start};
use std::io;
use std::io::Write;
use tables::limits::HANDHELD_SIZE;

// What the set shows: rows, the menu's line, and who calls.
fn show<W: Write>(out: &mut W, store: &[u8]) -> io::Result<()> {
    rows(out, store)?;
    room(out, store)?;
    call(out, store)
}

// Judges a message, and commits it where it is good: what committing answers then, and what judging does where it is not.
// take, put and shift each have it: a crate for these lines would be no plainer.
fn take(message: &[u8], store: &mut [u8], reply: &mut [u8]) -> Answer {
    let answer = judge(message, store, reply);
    if number(answer) != 0 {
        return answer;
    }
    commit(message, store, reply)
}

// Takes a message and prints its line; what is shown after it.
fn receive<W: Write>(
    out: &mut W,
    n: u64,
    message: &[u8],
    store: &mut [u8],
    reply: &mut [u8],
) -> io::Result<()> {
    let answer = take(message, store, reply);
    tell(out, n, message, answer, reply)?;
    show(out, store)
}

fn main(rt: HostRuntime) -> io::Result<()> {
    let mut input = rt.reader();
    let mut out = rt.stdout();
    let mut buffer = [0u8; 4096];
    let mut store = [0u8; HANDHELD_SIZE];
    let mut reply = [0u8; 20];
    start(&mut store);
    text(&mut out, b"A fresh store\n")?;
    show(&mut out, &store)?;
    for n in 1..=u64::MAX {
        match read_record(&mut input, &mut buffer)? {
            Some(Record::Whole(_, length)) => {
                receive(&mut out, n, &buffer[0..length], &mut store, &mut reply)?;
            }
            Some(Record::TooLong(_)) => {
                let answer = Answer::Untouched(Refusal::MessageSize);
                tell(&mut out, n, b"", answer, &reply)?;
            }
            Some(Record::Cut) => {
                text(&mut out, b"\nThe input ends within a record.\n")?;
                break;
            }
            None => break,
        }
    }
    out.flush()
}
