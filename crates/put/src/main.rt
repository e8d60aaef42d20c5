// Takes the messages of the records on standard input, from a fresh store, and writes the ten records that the store is exported as.
#![tactic(auto)]

use export::handheld::export;
use export::parts::PARTS;
use records::{Record, read_record};
use station::answers::number;
use station::handheld::{commit, judge, start};
use std::io;
use std::io::{Read, Write};
use tables::limits::HANDHELD_SIZE;

// Judges a message, and commits it where it is good.
// take, put and shift each have it: a crate for these lines would be no plainer.
fn take(message: &[u8], store: &mut [u8], reply: &mut [u8]) {
    if number(judge(message, store, reply)) == 0 {
        commit(message, store, reply);
    }
}

// Writes the record of a part: length and kind, each two bytes little-endian, then the request.
fn put_part<W: Write>(out: &mut W, part: u32, store: &[u8], buffer: &mut [u8]) -> io::Result<()> {
    let written = export(part, store, buffer);
    let Ok(length) = written else {
        return Ok(());
    };
    let head = [
        (length % 256) as u8,
        (length / 256 % 256) as u8,
        (part % 256) as u8,
        0,
    ];
    out.write_all(&head)?;
    out.write_all(&buffer[0..length])
}

// Takes the messages of the records; one that is too long for the buffer is left out.
fn take_all<R: Read>(input: &mut R, buffer: &mut [u8], store: &mut [u8]) -> io::Result<()> {
    let mut reply = [0u8; 20];
    for _ in 0..u64::MAX {
        match read_record(input, buffer)? {
            Some(Record::Whole(_, length)) => take(&buffer[0..length], store, &mut reply),
            Some(Record::TooLong(_)) => {}
            Some(Record::Cut) | None => return Ok(()),
        }
    }
    Ok(())
}

fn main(rt: HostRuntime) -> io::Result<()> {
    let mut input = rt.reader();
    let mut out = rt.stdout();
    let mut buffer = [0u8; 4096];
    let mut store = [0u8; HANDHELD_SIZE];
    start(&mut store);
    take_all(&mut input, &mut buffer, &mut store)?;
    for part in 1..=PARTS {
        put_part(&mut out, part, &store, &mut buffer)?;
    }
    out.flush()
}
