// A request to the plain engine.
ghost use Rattle.std.specs.Prelude.{◌≤◌, length};
ghost use Rattle.plain.specs.Steps.{RequestTaken};

use super::answers::{Answer, Refusal};
use super::replying::{accept, turn_down};
use plain_judge::judge::judge_settings;
use plain_log::checks::Area;
use plain_log::keeping::keep;
use requests::run::Request;

// It is judged after those that are kept, and kept where it is good and does not pass the area's end.
pub(crate) fn take_request(
    m: &[u8],
    request: Request,
    area: &mut [u8],
    seen: Area,
    reply: &mut [u8],
    weights: &mut [usize],
) -> Answer
    ensures { RequestTaken m.now request area.old seen reply.old weights.old area.new reply.new result }
{
    match judge_settings(area, seen.deeds, m, request, weights) {
        Err(fault) => Answer::Replied(turn_down(reply, fault.result, fault.failed)),
        Ok((item, _)) => match keep(area, seen.used, m) {
            Err(_) => Answer::Untouched(Refusal::AreaFull),
            Ok(_) => Answer::Replied(accept(m, item.flags, item.hash, reply)),
        },
    }
}
