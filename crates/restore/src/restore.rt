// Restores one set's tables in another, by the requests that it is exported as.
ghost use Rattle.std.specs.Prelude.{◌≡◌, length};
ghost use Rattle.lists.specs.Ladder.{Answers};
ghost use Rattle.export.specs.Exportable.{Exportable};
ghost use Rattle.restore.specs.Restoring.{number, restoring, Moved, AllMoved};

use export::exporting::export_in;
use export::parts::PARTS;
use station::commit::commit_for;
use store_check::checks::is_store;
use tables::limits::Limits;
use tables::start::start;

#[derive(Clone, Copy)]
pub enum Restored {
    Same,
    ReplyBuffer,
    NotAStore,
    Buffer,
}

// Exports a part of one set and commits it to the other.
fn move_part(
    part: u32,
    from: &[u8],
    to: &mut [u8],
    buffer: &mut [u8],
    reply: &mut [u8],
    limits: Limits,
    work: &mut [u8],
)
    ensures { Moved limits part from.now to.old to.new buffer.old buffer.new reply.old reply.new work.old }
{
    let written = export_in(part, from, buffer, limits, work);
    let Ok(length) = written else {
        return;
    };
    commit_for(&buffer[0..length], to, reply, limits, work);
}

// All parts in order.
fn move_parts(
    from: &[u8],
    to: &mut [u8],
    buffer: &mut [u8],
    reply: &mut [u8],
    limits: Limits,
    work: &mut [u8],
)
    ensures { AllMoved limits from.now to.old to.new buffer.old buffer.new reply.old reply.new work.old }
{
    for done in 0..PARTS {
        move_part(done + 1, from, to, buffer, reply, limits, work);
    }
}

// The other store's tables become those of the first, the kept hash aside, for sets with these limits; as many bytes as a store has are lent to work in.
// It is started first, so that no text that it held takes room; nothing is lost, for every table is replaced.
pub fn restore_in(
    from: &[u8],
    to: &mut [u8],
    buffer: &mut [u8],
    reply: &mut [u8],
    limits: Limits,
    work: &mut [u8],
) -> Restored
    ensures { Exportable limits → length work.old ≡ limits.size → Answers (restoring limits from.now to.old buffer.old reply.old) (record { answer = number result; to = to.new; buffer = buffer.new; reply = reply.new }) }
{
    if reply.len() < 20 {
        return Restored::ReplyBuffer;
    }
    if !is_store(to, limits) {
        return Restored::NotAStore;
    }
    if buffer.len() < limits.message {
        return Restored::Buffer;
    }
    if !is_store(from, limits) {
        return Restored::NotAStore;
    }
    start(to, limits);
    move_parts(from, to, buffer, reply, limits, work);
    Restored::Same
}
