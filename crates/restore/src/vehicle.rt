// The call of the vehicle, which owns the working copy.
// Kept beside handheld.rt, since the README names both: each only calls restore_in, which is generic, with a working copy of its own fixed size.
ghost use Rattle.lists.specs.Ladder.{Answers};
ghost use Rattle.tables.specs.Limits.{vehicle};
ghost use Rattle.restore.specs.Restoring.{number, restoring};

use super::restore::{Restored, restore_in};
use tables::limits::{VEHICLE, VEHICLE_SIZE};

// The other store's tables become those of the first, the kept hash aside. The buffer has 8,192 bytes, the reply buffer 20.
pub fn restore(from: &[u8], to: &mut [u8], buffer: &mut [u8], reply: &mut [u8]) -> Restored
    ensures { Answers (restoring vehicle from.now to.old buffer.old reply.old) (record { answer = number result; to = to.new; buffer = buffer.new; reply = reply.new }) }
{
    let mut work = [0u8; VEHICLE_SIZE];
    restore_in(from, to, buffer, reply, VEHICLE, &mut work)
}
