// The calls for the handheld's stores, which own the copies and the buffers to compare in.
ghost use Rattle.lists.specs.Ladder.{Answers};
ghost use Rattle.tables.specs.Limits.{handheld};
ghost use Rattle.updating.specs.Updating.{checking, proposing};

use super::answers::{Check, Proposal};
use super::checking::check_in;
use super::proposing::propose_in;
use tables::limits::{HANDHELD, HANDHELD_SIZE};

// How many bytes its longest message has.
const MESSAGE: usize = 4096;

// Whether the first store takes the message, a request, and then has the second's tables, the kept hash aside. Neither store changes.
pub fn check(first: &[u8], second: &[u8], message: &[u8]) -> Check
    ensures { Answers (checking handheld first.now second.now message.now) result }
{
    let mut after = [0u8; HANDHELD_SIZE];
    let mut work = [0u8; HANDHELD_SIZE];
    check_in(first, second, message, HANDHELD, &mut after, &mut work)
}

// The request that exports the second store's part, where the tables of this part alone differ from the first's. The buffer has 4,096 bytes.
pub fn propose(first: &[u8], second: &[u8], buffer: &mut [u8]) -> Proposal
    ensures { Answers (proposing handheld first.now second.now buffer.old) (record { answer = result; buffer = buffer.new }) }
{
    let mut a = [0u8; MESSAGE];
    let mut b = [0u8; MESSAGE];
    let mut work = [0u8; HANDHELD_SIZE];
    propose_in(first, second, buffer, HANDHELD, &mut a, &mut b, &mut work)
}
