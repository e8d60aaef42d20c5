// The call for the vehicle's message size.
// Kept beside handheld.rt, since the README names both: each only calls join_in, which is generic, with its own message size.
ghost use Rattle.lists.specs.Ladder.{Answers};
ghost use Rattle.tables.specs.Limits.{vehicle};
ghost use Rattle.joining.specs.Joins.{joining};
ghost use Rattle.joining.specs.Told.{told};

use super::answers::Join;
use super::joins::join_in;
use tables::limits::VEHICLE;

// Joins two requests to a vehicle, or says why not and leaves the buffer.
pub fn join(first: &[u8], second: &[u8], buffer: &mut [u8]) -> Join
    ensures { Answers (joining vehicle.message first.now second.now buffer.old) (record { answer = told result; buffer = buffer.new }) }
{
    join_in(first, second, buffer, VEHICLE.message)
}
