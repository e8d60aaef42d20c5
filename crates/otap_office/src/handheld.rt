// The calls of the handheld's message size.
ghost use Rattle.tables.specs.Limits.{handheld};
ghost use Rattle.packing_office.specs.PackedJoin.{AnswersJoin};
ghost use Rattle.packing_office.specs.PackedReading.{AnswersMessage};
ghost use Rattle.packing_office.specs.PackedUpdate.{AnswersCheck, AnswersProposal};

use super::packed::{packed_join, packed_message};
use packing_office::update::{pack_check, pack_proposal};
use tables::limits::HANDHELD;
use updating::handheld::{check, propose};

// Number, total, index and how many parameters a report message has: 12, 13, 14, 1, 4 refuse.
#[unsafe(no_mangle)]
pub extern "C" fn otap_read_report(message: &[u8]) -> u64
    ensures { AnswersMessage handheld.message message.now result }
{
    packed_message(message, HANDHELD.message)
}

// Number, failed ID, whether the second request is at fault, and the length of the joined request, which stands at the buffer's start. Refusals leave the buffer.
#[unsafe(no_mangle)]
pub extern "C" fn otap_join(first: &[u8], second: &[u8], buffer: &mut [u8]) -> u64
    ensures { AnswersJoin handheld.message first.now second.now buffer.old buffer.new result }
{
    packed_join(first, second, buffer, HANDHELD.message)
}

// Number, and whether the first store takes the request and then has the second's tables, the kept hash aside. No store changes.
#[unsafe(no_mangle)]
pub extern "C" fn otap_check_update(first: &[u8], second: &[u8], request: &[u8]) -> u64
    ensures { AnswersCheck handheld first.now second.now request.now result }
{
    let answer = check(first, second, request);
    pack_check(answer)
}

// Number, and the length of the request that stands at the buffer's start: the second store's part where that alone differs. Refusals leave the buffer.
#[unsafe(no_mangle)]
pub extern "C" fn otap_propose(first: &[u8], second: &[u8], buffer: &mut [u8]) -> u64
    ensures { AnswersProposal handheld first.now second.now buffer.old buffer.new result }
{
    let answer = propose(first, second, buffer);
    pack_proposal(answer)
}
