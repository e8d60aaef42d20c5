// The call of the vehicle's menu.
// Its twin of the handheld stays: README names a module for each set, and each call is one line, of the function for any limits.
ghost use Rattle.lists.specs.Ladder.{Answers};
ghost use Rattle.tables.specs.Limits.{vehicle};
ghost use Rattle.menu.specs.Menu.{counting, told};

use super::counting::{Counts, counts_in};
use tables::limits::VEHICLE;

// How many lines and channels the store holds.
pub fn counts(store: &[u8]) -> Option<Counts>
    ensures { Answers (counting vehicle store.now) (told result) }
{
    counts_in(store, VEHICLE)
}
