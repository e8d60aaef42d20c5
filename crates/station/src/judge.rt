// A message judged against a store, which stays as it is: a request on a working copy, a result query by the hash kept. The reply is written.
ghost use Rattle.std.specs.Prelude.{◌≤◌, ◌<◌, ◌≡◌, length, replicate};
ghost use Rattle.tables.specs.Store.{StoreOf};
ghost use Rattle.requests.specs.Parts.{CopyIs};
ghost use Rattle.station.specs.Answers.{said};
ghost use Rattle.station.specs.Handling.{TurnedDown, Queried, RequestJudged, Accepted, Weighed, VerdictIs, answer_of};
ghost use Rattle.station.specs.Judging.{Judges};

use super::answers::{Answer, Refusal, Reply};
use super::queries::same_hash;
use super::replies::{result_number, write_reply};
use read_carrier::carrier::{Message, read_message};
use read_fields::hashes::HashPlace;
use requests::part::{copy_for, take_copy_from};
use requests::run::{Fault, Request};
use store_check::checks::is_store;
use store_places::fixed::clear_hash;
use tables::limits::Limits;
use tables::places::{HASH, KEY};
use working::areas::stored_bytes;
use working::copies::{Copy, copy_bytes, load_copy};
use writing::{CfgResult, LastFlags};

// What a message comes to: nothing is touched, or a reply is written and the store stays, or the working copy of these tables has what the store becomes.
pub(crate) type Verdict = Result<(Reply, Option<Copy>), Refusal>;

// The reply of 1 to 4, which carries no hash.
fn turn_down(reply: &mut [u8], res: CfgResult, failed: u8) -> Reply
    requires { 20 ≤ length reply.old }
    ensures { TurnedDown res failed reply.old reply.new result }
{
    let none = [0u8; 11];
    let length = write_reply(reply, result_number(res), failed, &none);
    Reply {
        result: res,
        failed,
        send: true,
        reboot: false,
        length,
    }
}

// A result query: 0 where the hash asked for is the one kept, and 5 otherwise.
fn answer_query(m: &[u8], place: HashPlace, store: &[u8], reply: &mut [u8]) -> Reply
    requires { (20 ≤ length reply.old) × (11 ≤ length store.now) }
    ensures { Queried m.now place store.now reply.old reply.new result }
{
    let result = if same_hash(m, place, &store[HASH..KEY]) {
        CfgResult::Taken
    } else {
        CfgResult::NoMatch
    };
    let length = write_reply(reply, result_number(result), 0, &store[HASH..KEY]);
    Reply {
        result: result,
        failed: 0,
        send: true,
        reboot: false,
        length,
    }
}

// A request, judged on a working copy of these tables, which has them after all settings where all are good. No reply is written.
pub(crate) fn judge_request(
    m: &[u8],
    request: Request,
    store: &[u8],
    limits: Limits,
    work: &mut [u8],
    copy: Copy,
) -> Result<LastFlags, Fault>
    requires { StoreOf limits store.now × (length work.old ≡ limits.size) × (work.old ≡ replicate limits.size 0) × CopyIs request.coding limits request.count m.now request.at copy }
    ensures { RequestJudged request.coding limits copy m.now request.count request.at store.now work.new result }
{
    load_copy(work, store, limits, copy);
    clear_hash(&mut work[HASH..KEY]);
    let held = stored_bytes(store, limits);
    let own = copy_bytes(store, limits, copy);
    take_copy_from(work, limits, m, request, held, own, copy)
}

// The reply to a good request, which carries the hash that committing it keeps.
fn accept(reply: &mut [u8], flags: LastFlags, hash: &[u8]) -> Reply
    requires { 20 ≤ length reply.old }
    ensures { Accepted flags hash.now reply.old reply.new result }
{
    let length = write_reply(reply, 0, 0, hash);
    Reply {
        result: CfgResult::Taken,
        failed: 0,
        send: flags.reply,
        reboot: flags.reboot,
        length,
    }
}

// What a request that was judged on a working copy with this hash comes to.
fn weigh(
    run: Result<LastFlags, Fault>,
    copy: Copy,
    reply: &mut [u8],
    hash: &[u8],
) -> (Reply, Option<Copy>)
    requires { 20 ≤ length reply.old }
    ensures { Weighed run copy hash.now reply.old reply.new result }
{
    match run {
        Err(fault) => (turn_down(reply, fault.result, fault.failed), None),
        Ok(flags) => (accept(reply, flags, hash), Some(copy)),
    }
}

// A message to a set with these limits, which lends as many bytes to work in as a store has, all 0.
pub(crate) fn judge_in(
    m: &[u8],
    store: &[u8],
    reply: &mut [u8],
    limits: Limits,
    work: &mut [u8],
) -> Verdict
    requires { (length work.old ≡ limits.size) × (work.old ≡ replicate limits.size 0) }
    ensures { VerdictIs limits m.now store.now reply.old reply.new work.new result }
{
    if reply.len() < 20 {
        return Err(Refusal::ReplyBuffer);
    }
    if !is_store(store, limits) {
        return Err(Refusal::NotAStore);
    }
    let message = read_message(m, limits.message);
    match message {
        Message::Size => Err(Refusal::MessageSize),
        Message::Carrier => Err(Refusal::Carrier),
        Message::Type => Err(Refusal::MessageType),
        Message::Version => Ok((turn_down(reply, CfgResult::OtherVersion, 0), None)),
        Message::NoRequest => Ok((turn_down(reply, CfgResult::BadField, 0), None)),
        Message::NoQuery => Ok((turn_down(reply, CfgResult::BadField, 0), None)),
        Message::Query(place) => Ok((answer_query(m, place, store, reply), None)),
        Message::Request(count, at, coding) => {
            let request = Request { at, count, coding };
            let copy = copy_for(m, request, limits);
            let run = judge_request(m, request, store, limits, work, copy);
            let after = &work[..];
            Ok(weigh(run, copy, reply, &after[HASH..KEY]))
        }
    }
}

// The answer of both calls.
pub(crate) fn answer_of(verdict: Verdict) -> Answer
    ensures { result ≡ answer_of verdict }
{
    match verdict {
        Err(refusal) => Answer::Untouched(refusal),
        Ok((reply, _)) => Answer::Replied(reply),
    }
}

// Judging alone, for a set with these limits, which owns the working copy: the answer that committing would give.
pub(crate) fn judge_for<const SIZE: usize>(
    m: &[u8],
    store: &[u8],
    reply: &mut [u8],
    limits: Limits,
) -> Answer
    requires { (limits.size ≡ SIZE) × (SIZE < 65536) }
    ensures { Judges limits m.now store.now reply.old (said result) reply.new }
{
    let mut work = [0u8; SIZE];
    answer_of(judge_in(m, store, reply, limits, &mut work))
}
