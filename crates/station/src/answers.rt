// What judging and committing a message answer.
ghost use Rattle.std.specs.Prelude.{◌≡◌};
ghost use Rattle.station.specs.Answers.{refusal_number, said};

use super::replies::result_number;
use writing::CfgResult;

// A refusal that touches no byte, with its number of document 01.
#[derive(Clone, Copy)]
pub enum Refusal {
    ReplyBuffer = 10,
    NotAStore,
    MessageSize,
    Carrier,
    MessageType,
}

// A reply that was written: its result, the number of the first setting at fault, whether to send it and to restart, and its length.
#[derive(Clone, Copy)]
pub struct Reply {
    pub result: CfgResult,
    pub failed: u8,
    pub send: bool,
    pub reboot: bool,
    pub length: u8,
}

#[derive(Clone, Copy)]
pub enum Answer {
    Untouched(Refusal),
    Replied(Reply),
}

// The number of document 01 for a refusal that touches nothing.
pub fn refusal_number(refusal: Refusal) -> u8
    ensures { result ≡ refusal_number refusal }
{
    refusal as u8
}

// The number of document 01 for an answer.
pub fn number(answer: Answer) -> u8
    ensures { result ≡ (said answer).number }
{
    match answer {
        Answer::Untouched(refusal) => refusal_number(refusal),
        Answer::Replied(reply) => result_number(reply.result),
    }
}

// The number of the first setting at fault, 0 where none is.
pub fn failed_id(answer: Answer) -> u8
    ensures { result ≡ (said answer).failed }
{
    match answer {
        Answer::Untouched(_) => 0,
        Answer::Replied(reply) => reply.failed,
    }
}
