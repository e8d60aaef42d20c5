// What a message comes to, in words.
use printing::output::{decimal, hex, text};
use station::answers::{Answer, Reply, failed_id, number};
use std::io;
use std::io::Write;

// Whether a message asks for a result: MsgType is 5.
fn is_query(message: &[u8]) -> bool {
    if message.len() < 7 {
        return false;
    }
    message[6] % 8 == 5
}

// A few words for a number of document 01.
fn meaning<W: Write>(out: &mut W, number: u8) -> io::Result<()> {
    match number {
        1 => text(out, b"refused: another version"),
        2 => text(out, b"refused: no room"),
        3 => text(out, b"refused: no such setting"),
        4 => text(out, b"refused: bad field"),
        5 => text(out, b"the hash differs"),
        12 => text(out, b"refused: too short or too long"),
        13 => text(out, b"refused: bad carrier or length"),
        14 => text(out, b"refused: not a request"),
        _ => text(out, b"refused"),
    }
}

// The words for 0, or for another number with the setting at fault.
fn outcome<W: Write>(out: &mut W, answer: Answer, query: bool) -> io::Result<()> {
    let n = number(answer);
    decimal(out, n)?;
    text(out, b", ")?;
    if n != 0 {
        meaning(out, n)?;
    } else if query {
        text(out, b"the hash matches")?;
    } else {
        text(out, b"taken")?;
    }
    let failed = failed_id(answer);
    if failed != 0 {
        text(out, b"; failed ID ")?;
        decimal(out, failed)?;
    }
    Ok(())
}

// What is to be done with the reply, and its bytes.
fn replied<W: Write>(out: &mut W, said: Reply, reply: &[u8]) -> io::Result<()> {
    if said.send {
        text(out, b"; send the reply")?;
    } else {
        text(out, b"; keep the reply")?;
    }
    if said.reboot {
        text(out, b"; restart\n")?;
    } else {
        text(out, b"; no restart\n")?;
    }
    text(out, b"  reply               ")?;
    hex(out, reply, said.length as usize)?;
    text(out, b"\n")
}

// The lines of message n.
pub(crate) fn tell<W: Write>(
    out: &mut W,
    n: u64,
    message: &[u8],
    answer: Answer,
    reply: &[u8],
) -> io::Result<()> {
    text(out, b"\nMessage ")?;
    decimal(out, n)?;
    text(out, b": ")?;
    outcome(out, answer, is_query(message))?;
    match answer {
        Answer::Untouched(_) => text(out, b"; no reply; no restart\n"),
        Answer::Replied(said) => replied(out, said, reply),
    }
}
