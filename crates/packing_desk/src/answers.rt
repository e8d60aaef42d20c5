// What starting an area and taking a message answer.
ghost use Rattle.std.specs.Prelude.{◌≡◌};
ghost use Rattle.packing.specs.Packing.{Packs};
ghost use Rattle.plain.specs.Plain.{plain_said};
ghost use Rattle.packing_desk.specs.PackedDesk.{area_started};

use packing::messages::pack_reply;
use plain::answers::{Answer, refusal_number};
use plain_log::areas::Started;

pub fn start_number(did: Started) -> u32
    ensures { result ≡ area_started did }
{
    match did {
        Started::Fresh => 0,
        Started::WrongSize => 11,
    }
}

// Packed as the answer of committing a message.
pub fn pack_plain(answer: Answer) -> u64
    ensures { Packs (plain_said answer) result }
{
    match answer {
        Answer::Untouched(refusal) => refusal_number(refusal) as u64,
        Answer::Replied(reply) => pack_reply(reply),
    }
}
