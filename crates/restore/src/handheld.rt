// The call of the handheld, which owns the working copy.
ghost use Rattle.lists.specs.Ladder.{Answers};
ghost use Rattle.tables.specs.Limits.{handheld};
ghost use Rattle.restore.specs.Restoring.{number, restoring};

use super::restore::{Restored, restore_in};
use tables::limits::{HANDHELD, HANDHELD_SIZE};

// The other store's tables become those of the first, the kept hash aside. The buffer has 4,096 bytes, the reply buffer 20.
pub fn restore(from: &[u8], to: &mut [u8], buffer: &mut [u8], reply: &mut [u8]) -> Restored
    ensures { Answers (restoring handheld from.now to.old buffer.old reply.old) (record { answer = number result; to = to.new; buffer = buffer.new; reply = reply.new }) }
{
    let mut work = [0u8; HANDHELD_SIZE];
    restore_in(from, to, buffer, reply, HANDHELD, &mut work)
}
