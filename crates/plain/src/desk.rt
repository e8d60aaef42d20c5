// The calls of the desk emulator.
ghost use Rattle.lists.specs.Ladder.{Answers};
ghost use Rattle.plain_log.specs.Area.{area_starting, area_begins};
ghost use Rattle.plain.specs.Plain.{plain_leaves, plain_taken};

use super::answers::{Answer, Refusal};
use super::asked::take_request;
use super::replying::{answer_query, turn_down};
use plain_log::areas::{Started, start as start_area};
use plain_log::checks::check_area;
use read_carrier::carrier::{Message, read_message};
use requests::run::Request;
use tables::limits::HANDHELD;
use writing::CfgResult;

// Makes any 32,768 bytes a fresh area.
pub fn start(area: &mut [u8]) -> Started
    ensures { Answers (area_starting area.old) (area_begins result area.new) }
{
    start_area(area)
}

// Takes a message: answers as the hand-held would, writes the reply for 0 to 5, and keeps a request that was taken.
pub fn take(m: &[u8], area: &mut [u8], reply: &mut [u8]) -> Answer
    ensures { Answers (plain_taken m.now area.old reply.old) (plain_leaves result area.new reply.new) }
{
    if reply.len() < 20 {
        return Answer::Untouched(Refusal::ReplyBuffer);
    }
    let mut weights = [0usize; 27];
    let Some(seen) = check_area(area, &mut weights) else {
        return Answer::Untouched(Refusal::NotAnArea);
    };
    let message = read_message(m, HANDHELD.message);
    match message {
        Message::Size => Answer::Untouched(Refusal::MessageSize),
        Message::Carrier => Answer::Untouched(Refusal::Carrier),
        Message::Type => Answer::Untouched(Refusal::MessageType),
        Message::Version => Answer::Replied(turn_down(reply, CfgResult::OtherVersion, 0)),
        Message::NoRequest => Answer::Replied(turn_down(reply, CfgResult::BadField, 0)),
        Message::NoQuery => Answer::Replied(turn_down(reply, CfgResult::BadField, 0)),
        Message::Query(place) => { Answer::Replied(answer_query(m, place, area, seen.hash, reply)) }
        Message::Request(count, at, coding) => {
            let request = Request { at, count, coding };
            take_request(m, request, area, seen, reply, &mut weights)
        }
    }
}
