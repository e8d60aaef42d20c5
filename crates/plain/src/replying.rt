// Replies of the plain engine.
ghost use Rattle.std.specs.Prelude.{◌≤◌, length};
ghost use Rattle.plain.specs.Steps.{HashAsBytes, TurnedDown, Queried, Accepted};

use read_fields::hashes::HashPlace;
use station::answers::Reply;
use station::queries::same_hash;
use station::replies::{result_number, write_reply};
use store_places::fixed::put_hash;
use writing::{CfgResult, LastFlags};

// The hash that stands at a place, in the 11 bytes that a store keeps it in.
fn hash_bytes(m: &[u8], place: HashPlace) -> [u8; 11]
    ensures { HashAsBytes m.now place result }
{
    let mut hash = [0u8; 11];
    put_hash(&mut hash, m, place);
    hash
}

// The reply of 1 to 4, which carries no hash.
pub(crate) fn turn_down(reply: &mut [u8], res: CfgResult, failed: u8) -> Reply
    ensures { 20 ≤ length reply.old → TurnedDown res failed reply.old reply.new result }
{
    let none = [0u8; 11];
    let length = write_reply(reply, result_number(res), failed, &none);
    Reply {
        result: res,
        failed,
        send: true,
        reboot: false,
        length,
    }
}

// A result query: 0 where the hash asked for is the one kept, which stands at a place of the area, and 5 otherwise.
pub(crate) fn answer_query(
    m: &[u8],
    place: HashPlace,
    area: &[u8],
    kept: HashPlace,
    reply: &mut [u8],
) -> Reply
    ensures { 20 ≤ length reply.old → Queried m.now place area.now kept reply.old reply.new result }
{
    let hash = hash_bytes(area, kept);
    let result = if same_hash(m, place, &hash) {
        CfgResult::Taken
    } else {
        CfgResult::NoMatch
    };
    let length = write_reply(reply, result_number(result), 0, &hash);
    Reply {
        result,
        failed: 0,
        send: true,
        reboot: false,
        length,
    }
}

// The reply to a request that was taken, which carries its own hash.
pub(crate) fn accept(m: &[u8], flags: LastFlags, place: HashPlace, reply: &mut [u8]) -> Reply
    ensures { 20 ≤ length reply.old → Accepted m.now flags place reply.old reply.new result }
{
    let hash = hash_bytes(m, place);
    let length = write_reply(reply, 0, 0, &hash);
    Reply {
        result: CfgResult::Taken,
        failed: 0,
        send: flags.reply,
        reboot: flags.reboot,
        length,
    }
}
