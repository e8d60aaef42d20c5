// The call of the handheld, for an incoming line call.
ghost use Rattle.lists.specs.Ladder.{Answers};
ghost use Rattle.tables.specs.Limits.{handheld};
ghost use Rattle.callers.specs.Callers.{looking_up, told};

use super::lookup::{NoCaller, line_of_in};
use tables::limits::HANDHELD;

// The row of the line that has an IDtype and digits, one digit a byte, or that none has them.
pub fn line_of(idtype: u32, digits: &[u8], store: &[u8]) -> Result<Option<usize>, NoCaller>
    ensures { Answers (looking_up handheld idtype digits.now store.now) (told result) }
{
    line_of_in(idtype, digits, store, HANDHELD)
}
