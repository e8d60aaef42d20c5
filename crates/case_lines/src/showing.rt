// Writes what a case comes to, on one line.
use printing::output;
pub use printing::output::{decimal, text};
use station::answers::{Answer, Reply, failed_id, number};
use std::io;
use std::io::Write;
use tables::start::Started;
use writing::CfgResult;

pub fn yes_or_no<W: Write>(out: &mut W, what: &[u8], answer: bool) -> io::Result<()> {
    text(out, what)?;
    if answer {
        text(out, b" yes")
    } else {
        text(out, b" no")
    }
}

// The first bytes, as many as the length says, or that there are none; the line's end.
pub fn hex<W: Write>(out: &mut W, bytes: &[u8], length: usize) -> io::Result<()> {
    if length == 0 {
        text(out, b" none")?;
    }
    output::hex(out, bytes, length)?;
    text(out, b"\n")
}

// What an answer says of its reply; a refusal that touches nothing has none.
fn reply_of(answer: Answer) -> Reply {
    match answer {
        Answer::Untouched(_) => Reply {
            result: CfgResult::Taken,
            failed: 0,
            send: false,
            reboot: false,
            length: 0,
        },
        Answer::Replied(reply) => reply,
    }
}

fn numbers<W: Write>(out: &mut W, answer: Answer) -> io::Result<()> {
    text(out, b": ")?;
    decimal(out, number(answer))?;
    text(out, b", failed ID ")?;
    decimal(out, failed_id(answer))
}

// The line of starting a store.
pub fn started<W: Write>(out: &mut W, what: &[u8], answer: Started) -> io::Result<()> {
    text(out, what)?;
    text(out, b": ")?;
    match answer {
        Started::Fresh => text(out, b"0")?,
        Started::WrongSize => text(out, b"11")?,
    }
    text(out, b"\n")
}

// The case's line: number, failed ID, send, reboot, whether the store stayed as it was, and the reply's bytes.
pub(crate) fn line<W: Write>(
    out: &mut W,
    what: &[u8],
    answer: Answer,
    stayed: bool,
    reply: &[u8],
) -> io::Result<()> {
    text(out, what)?;
    numbers(out, answer)?;
    let said = reply_of(answer);
    yes_or_no(out, b", send", said.send)?;
    yes_or_no(out, b", reboot", said.reboot)?;
    yes_or_no(out, b", store stayed", stayed)?;
    text(out, b", reply")?;
    hex(out, reply, said.length as usize)
}
