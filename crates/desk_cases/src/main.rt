// Gives the messages of the records on standard input to a hand-held and to the plain engine, each from a fresh start.
// It prints a line for each: kind, number and failed ID of the hand-held, then `same`, or number and failed ID of the plain engine. The rows of both are compared while
// little is kept, and the first that differs has a line. A record of kind 65534 is an instruction to this program.
#![tactic(auto)]

mod answers;
mod instructions;
mod rows;

use answers::tell;
use instructions::obey;
use plain::answers::number;
use plain::desk::{start as start_area, take};
use plain_log::areas::AREA;
use printing::output::text;
use records::{Record, read_record};
use rows::compare;
use station::handheld::{commit, start};
use std::io;
use std::io::Write;
use tables::limits::HANDHELD_SIZE;

// The kind of an instruction.
const INSTRUCTION: u16 = 65534;

// Whether an area has fewer than 2,048 bytes of requests.
fn is_small(area: &[u8]) -> bool {
    4 <= area.len() && area[2] < 8
}

// Gives a message to both, and compares what they say, and their rows where the plain engine took it.
fn receive<W: Write>(
    out: &mut W,
    kind: u16,
    message: &[u8],
    store: &mut [u8],
    area: &mut [u8],
) -> io::Result<()> {
    let mut first = [0xEEu8; 20];
    let mut second = [0xEEu8; 20];
    let handheld = commit(message, store, &mut first);
    let plain = take(message, area, &mut second);
    tell(out, kind, handheld, plain, &first, &second)?;
    if number(plain) == 0 && is_small(area) {
        compare(out, store, area)?;
    }
    Ok(())
}

// A message, or an instruction.
fn deal_with<W: Write>(
    out: &mut W,
    kind: u16,
    bytes: &[u8],
    store: &mut [u8],
    area: &mut [u8],
) -> io::Result<()> {
    if kind == INSTRUCTION {
        obey(out, bytes, store, area)
    } else {
        receive(out, kind, bytes, store, area)
    }
}

fn main(rt: HostRuntime) -> io::Result<()> {
    let mut input = rt.reader();
    let mut out = rt.stdout();
    let mut buffer = [0u8; 4097];
    let mut store = [0u8; HANDHELD_SIZE];
    let mut area = [0u8; AREA];
    start(&mut store);
    start_area(&mut area);
    for _ in 0..u64::MAX {
        match read_record(&mut input, &mut buffer)? {
            Some(Record::Whole(kind, length)) => {
                deal_with(&mut out, kind, &buffer[0..length], &mut store, &mut area)?;
            }
            Some(Record::TooLong(_)) => text(&mut out, b"too long\n")?,
            Some(Record::Cut) => {
                text(&mut out, b"cut\n")?;
                break;
            }
            None => break,
        }
    }
    out.flush()
}
