// The call for the handheld's message size.
ghost use Rattle.lists.specs.Ladder.{Answers};
ghost use Rattle.tables.specs.Limits.{handheld};
ghost use Rattle.joining.specs.Joins.{joining};
ghost use Rattle.joining.specs.Told.{told};

use super::answers::Join;
use super::joins::join_in;
use tables::limits::HANDHELD;

// Joins two requests to a handheld, or says why not and leaves the buffer.
pub fn join(first: &[u8], second: &[u8], buffer: &mut [u8]) -> Join
    ensures { Answers (joining handheld.message first.now second.now buffer.old) (record { answer = told result; buffer = buffer.new }) }
{
    join_in(first, second, buffer, HANDHELD.message)
}
