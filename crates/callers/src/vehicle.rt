// The call of the vehicle, for an incoming line call.
// Its twin of the handheld stays: README names a module for each set, and each call is one line, of the function for any limits.
ghost use Rattle.lists.specs.Ladder.{Answers};
ghost use Rattle.tables.specs.Limits.{vehicle};
ghost use Rattle.callers.specs.Callers.{looking_up, told};

use super::lookup::{NoCaller, line_of_in};
use tables::limits::VEHICLE;

// The row of the line that has an IDtype and digits, one digit a byte, or that none has them.
pub fn line_of(idtype: u32, digits: &[u8], store: &[u8]) -> Result<Option<usize>, NoCaller>
    ensures { Answers (looking_up vehicle idtype digits.now store.now) (told result) }
{
    line_of_in(idtype, digits, store, VEHICLE)
}
