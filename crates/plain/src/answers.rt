// What taking a message answers.
ghost use Rattle.std.specs.Prelude.{◌≡◌};
ghost use Rattle.plain.specs.Plain.{refusal_number, plain_said};

use station::answers::Reply;
use station::replies::result_number;

// A refusal that touches no byte, with its number.
#[derive(Clone, Copy)]
pub enum Refusal {
    ReplyBuffer = 10,
    NotAnArea,
    MessageSize,
    Carrier,
    MessageType,
    AreaFull = 18,
}

#[derive(Clone, Copy)]
pub enum Answer {
    Untouched(Refusal),
    Replied(Reply),
}

// The number of a refusal that touches nothing.
pub fn refusal_number(refusal: Refusal) -> u8
    ensures { result ≡ refusal_number refusal }
{
    refusal as u8
}

// The number of an answer.
pub fn number(answer: Answer) -> u8
    ensures { result ≡ (plain_said answer).number }
{
    match answer {
        Answer::Untouched(refusal) => refusal_number(refusal),
        Answer::Replied(reply) => result_number(reply.result),
    }
}

// The number of the first setting at fault, 0 where none is.
pub fn failed_id(answer: Answer) -> u8
    ensures { result ≡ (plain_said answer).failed }
{
    match answer {
        Answer::Untouched(_) => 0,
        Answer::Replied(reply) => reply.failed,
    }
}
