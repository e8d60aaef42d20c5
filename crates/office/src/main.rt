// The office's program: reads the messages of reports in the records on standard input, and prints a line for each and for each of its parameters.
#![tactic(auto)]

mod contacts;
mod fields;
mod messages;
mod parameters;

use messages::{refused, show_message};
use printing::output::text;
use records::{Record, read_record};
use std::io;
use std::io::Write;

fn main(rt: HostRuntime) -> io::Result<()> {
    let mut input = rt.reader();
    let mut out = rt.stdout();
    let mut buffer = [0u8; 4096];
    for _ in 0..u64::MAX {
        match read_record(&mut input, &mut buffer)? {
            Some(Record::Whole(_, length)) => show_message(&mut out, &buffer[0..length])?,
            Some(Record::TooLong(_)) => refused(&mut out, 12)?,
            Some(Record::Cut) => {
                text(&mut out, b"cut\n")?;
                break;
            }
            None => break,
        }
    }
    out.flush()
}
