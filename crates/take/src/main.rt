// Takes the messages of the records on standard input, from a fresh store, and prints kind, number and failed ID of each.
#![tactic(auto)]

use records::{Record, read_record};
use station::answers::{Answer, failed_id, number};
use station::handheld::{commit, judge, start};
use std::io;
use std::io::Write;
use tables::limits::HANDHELD_SIZE;

// Judges a message, and commits it where it is good: what committing answers then, and what judging does where it is not.
// take, put and shift each have it: a crate for these lines would be no plainer.
fn take(message: &[u8], store: &mut [u8], reply: &mut [u8]) -> Answer {
    let answer = judge(message, store, reply);
    if number(answer) != 0 {
        return answer;
    }
    commit(message, store, reply)
}

fn main(rt: HostRuntime) -> io::Result<()> {
    let mut input = rt.reader();
    let mut out = rt.stdout();
    let mut buffer = [0u8; 4096];
    let mut store = [0u8; HANDHELD_SIZE];
    let mut reply = [0u8; 20];
    start(&mut store);
    for _ in 0..u64::MAX {
        match read_record(&mut input, &mut buffer)? {
            Some(Record::Whole(kind, length)) => {
                let answer = take(&buffer[0..length], &mut store, &mut reply);
                let number = number(answer);
                let failed = failed_id(answer);
                writeln!(out, "{kind} {number} {failed}")?;
            }
            Some(Record::TooLong(kind)) => writeln!(out, "{kind} 12 0")?,
            Some(Record::Cut) => {
                out.write_all(b"cut\n")?;
                break;
            }
            None => break,
        }
    }
    out.flush()
}
