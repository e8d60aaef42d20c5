// The calls for the vehicle's stores, which own the copies and the buffers to compare in.
// Kept beside handheld.rt, since the README names both: each only calls check_in and propose_in, which are generic, with copies and buffers of its own fixed sizes.
ghost use Rattle.lists.specs.Ladder.{Answers};
ghost use Rattle.tables.specs.Limits.{vehicle};
ghost use Rattle.updating.specs.Updating.{checking, proposing};

use super::answers::{Check, Proposal};
use super::checking::check_in;
use super::proposing::propose_in;
use tables::limits::{VEHICLE, VEHICLE_SIZE};

// How many bytes its longest message has.
const MESSAGE: usize = 8192;

// Whether the first store takes the message, a request, and then has the second's tables, the kept hash aside. Neither store changes.
pub fn check(first: &[u8], second: &[u8], message: &[u8]) -> Check
    ensures { Answers (checking vehicle first.now second.now message.now) result }
{
    let mut after = [0u8; VEHICLE_SIZE];
    let mut work = [0u8; VEHICLE_SIZE];
    check_in(first, second, message, VEHICLE, &mut after, &mut work)
}

// The request that exports the second store's part, where the tables of this part alone differ from the first's. The buffer has 8,192 bytes; the stores are read as they are.
pub fn propose(first: &[u8], second: &[u8], buffer: &mut [u8]) -> Proposal
    ensures { Answers (proposing vehicle first.now second.now buffer.old) (record { answer = result; buffer = buffer.new }) }
{
    let mut a = [0u8; MESSAGE];
    let mut b = [0u8; MESSAGE];
    let mut none = [0u8; 0];
    propose_in(first, second, buffer, VEHICLE, &mut a, &mut b, &mut none)
}
