// What starting a store, and judging or committing a message, answer.
ghost use Rattle.std.specs.Prelude.{◌≡◌};
ghost use Rattle.tables.specs.Store.{started};
ghost use Rattle.station.specs.Answers.{said};
ghost use Rattle.station.specs.declared.answers.Answer.TheVariants.{Replied};
ghost use Rattle.packing.specs.Packing.{Packs};

use super::bits::bit_of;
use station::answers::{Answer, Reply, refusal_number};
use station::replies::result_number;
use tables::start::Started;

pub fn start_number(did: Started) -> u32
    ensures { result ≡ started did }
{
    match did {
        Started::Fresh => 0,
        Started::WrongSize => 11,
    }
}

// Bits 0 to 7 number, 8 to 15 failed ID, 16 send, 17 reboot, 24 to 31 reply length.
pub fn pack_reply(reply: Reply) -> u64
    ensures { Packs (said (Replied reply)) result }
{
    let result = reply.result;
    result_number(result) as u64
        + reply.failed as u64 * 256
        + bit_of(reply.send) * 65536
        + bit_of(reply.reboot) * 131072
        + reply.length as u64 * 16777216
}

// The same of any answer.
pub fn pack_answer(answer: Answer) -> u64
    ensures { Packs (said answer) result }
{
    match answer {
        Answer::Untouched(refusal) => refusal_number(refusal) as u64,
        Answer::Replied(reply) => pack_reply(reply),
    }
}
