// Takes the messages of the records on standard input by the plain engine, from a fresh area, and prints kind, number and failed ID of each, as `take` does.
#![tactic(auto)]

use plain::answers::{failed_id, number};
use plain::desk::{start, take};
use plain_log::areas::AREA;
use records::{Record, read_record};
use std::io;
use std::io::Write;

fn main(rt: HostRuntime) -> io::Result<()> {
    let mut input = rt.reader();
    let mut out = rt.stdout();
    let mut buffer = [0u8; 4096];
    let mut area = [0u8; AREA];
    let mut reply = [0u8; 20];
    start(&mut area);
    for _ in 0..u64::MAX {
        match read_record(&mut input, &mut buffer)? {
            Some(Record::Whole(kind, length)) => {
                let answer = take(&buffer[0..length], &mut area, &mut reply);
                let number = number(answer);
                let failed = failed_id(answer);
                writeln!(out, "{kind} {number} {failed}")?;
            }
            Some(Record::TooLong(kind)) => writeln!(out, "{kind} 12 0")?,
            Some(Record::Cut) => {
                out.write_all(b"cut\n")?;
                break;
            }
            None => break,
        }
    }
    out.flush()
}
