// What the two engines said of a message, on one line.
use plain::answers::{Answer as PlainAnswer, failed_id as plain_failed_id, number as plain_number};
use printing::output::{decimal, text};
use station::answers::{Answer, Reply, failed_id, number};
use std::io;
use std::io::Write;

// Whether two replies are to be treated alike.
fn same_reply(first: Reply, second: Reply) -> bool {
    first.send == second.send && first.reboot == second.reboot && first.length == second.length
}

// Whether both wrote no reply, or such as are to be treated alike.
fn same_use(handheld: Answer, plain: PlainAnswer) -> bool {
    match (handheld, plain) {
        (Answer::Untouched(_), PlainAnswer::Untouched(_)) => true,
        (Answer::Replied(first), PlainAnswer::Replied(second)) => same_reply(first, second),
        _ => false,
    }
}

// Whether both gave the same answer, their replies aside.
fn same_answer(handheld: Answer, plain: PlainAnswer) -> bool {
    number(handheld) == plain_number(plain)
        && failed_id(handheld) == plain_failed_id(plain)
        && same_use(handheld, plain)
}

// A number and a failed ID.
fn pair<W: Write>(out: &mut W, number: u8, failed: u8) -> io::Result<()> {
    decimal(out, number)?;
    text(out, b" ")?;
    decimal(out, failed)
}

// What the plain engine said, where it is not what the hand-held did; `written` where a refusal that touches nothing left another reply buffer.
fn other<W: Write>(out: &mut W, plain: PlainAnswer, reply: &[u8]) -> io::Result<()> {
    pair(out, plain_number(plain), plain_failed_id(plain))?;
    if 10 <= plain_number(plain) && reply != [0xEEu8; 20].as_slice() {
        text(out, b" written")?;
    }
    Ok(())
}

// The line of a message.
pub(crate) fn tell<W: Write>(
    out: &mut W,
    kind: u16,
    handheld: Answer,
    plain: PlainAnswer,
    first: &[u8],
    second: &[u8],
) -> io::Result<()> {
    decimal(out, kind)?;
    text(out, b" ")?;
    pair(out, number(handheld), failed_id(handheld))?;
    text(out, b" ")?;
    if same_answer(handheld, plain) && first == second {
        text(out, b"same")?;
    } else {
        other(out, plain, second)?;
    }
    text(out, b"\n")
}
