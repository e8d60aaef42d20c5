// The counts of a store, which stand in it.
ghost use Rattle.std.specs.Prelude.{◌≡◌, Some, length};
ghost use Rattle.lists.specs.Ladder.{Answers};
ghost use Rattle.tables.specs.Forms.{Roomy};
ghost use Rattle.menu.specs.Menu.{Reads, counting, told};

use counted_lists::counts::count;
use store_check::checks::is_store;
use tables::limits::Limits;
use tables::list_places::{channels_at, line_slots, lines_at};
use tables::places::COUNT;

// How many line contacts and channels are held.
#[derive(Clone, Copy, PartialEq, Eq)]
pub struct Counts {
    pub lines: u16,
    pub channels: u16,
}

// Lines and channels, as the first bytes of their regions say: nothing is counted.
fn read_counts(store: &[u8], limits: Limits) -> Counts
    requires { Roomy limits × (length store.now ≡ limits.size) }
    ensures { Reads limits store.now (told (Some result)) }
{
    let start = channels_at(limits);
    let lines = lines_at(limits);
    let order = lines + (COUNT + line_slots(limits));
    let held = count(&store[lines..order]);
    let channels = count(&store[start..lines]);
    Counts {
        lines: held as u16,
        channels: channels as u16,
    }
}

// How many lines and channels a store of a set with these limits holds; none of bytes that are no store.
pub fn counts_in(store: &[u8], limits: Limits) -> Option<Counts>
    ensures { Answers (counting limits store.now) (told result) }
{
    if !is_store(store, limits) {
        return None;
    }
    Some(read_counts(store, limits))
}
