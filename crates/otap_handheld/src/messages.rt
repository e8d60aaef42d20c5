// Stores and messages.
ghost use Rattle.tables.specs.Limits.{handheld};
ghost use Rattle.packing.specs.Packing.{Starts, Judgements, Commits};

use packed_calls::messages::number_of_start;
use packing::messages::pack_answer;
use station::handheld::{commit, judge};
use tables::limits::HANDHELD;

// 0: the bytes are a fresh store. 11: they are not 24,576, and stay.
#[unsafe(no_mangle)]
pub extern "C" fn otap_start(store: &mut [u8]) -> u32
    ensures { Starts handheld store.old store.new result }
{
    number_of_start(store, HANDHELD)
}

// Number, failed ID, send, reboot and reply length: what committing the message to this store would answer, with the reply that it would write. The store stays.
#[unsafe(no_mangle)]
pub extern "C" fn otap_judge(message: &[u8], store: &[u8], reply: &mut [u8]) -> u64
    ensures { Judgements handheld message.now store.now reply.old reply.new result }
{
    let answer = judge(message, store, reply);
    pack_answer(answer)
}

// The same of a message that is committed: it is judged again, and a good request changes the store.
#[unsafe(no_mangle)]
pub extern "C" fn otap_commit(message: &[u8], store: &mut [u8], reply: &mut [u8]) -> u64
    ensures { Commits handheld message.now store.old reply.old store.new reply.new result }
{
    let answer = commit(message, store, reply);
    pack_answer(answer)
}
