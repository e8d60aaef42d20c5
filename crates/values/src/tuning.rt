// The scan channels, by position.
ghost use Rattle.std.specs.Prelude.{ℕ, ◌<◌, ◌≡◌, length};
ghost use Rattle.lists.specs.Ladder.{Answers};
ghost use Rattle.slots.specs.Slots.{u16};
ghost use Rattle.tables.specs.Store.{StoreOf};
ghost use Rattle.values.specs.Values.{told, tuning};

use super::answers::NoValue;
use counted_lists::counts::count;
use store_check::checks::is_store;
use tables::limits::Limits;
use tables::list_places::{channels_at, lines_at};
use tables::places::{CHANNEL_SLOT, COUNT};

// A byte as a number.
fn wide(x: u8) -> u16
    ensures { (result ≡ x) × (result < 256) }
{
    x as u16
}

// The number of two bytes, high byte first.
pub(crate) fn pair_of(s: &[u8]) -> u16
    requires { length s.now ≡ 2 }
    ensures { (a : ℕ) → s.now ≡ u16 a → result ≡ a }
{
    wide(s[0]) * 256 + wide(s[1])
}

// The channel at a position of a store.
fn tuned(position: usize, store: &[u8], limits: Limits) -> Result<u16, NoValue>
    requires { StoreOf limits store.now }
    ensures { Answers (tuning limits position store.now) (told result) }
{
    let channels = channels_at(limits);
    let lines = lines_at(limits);
    if count(&store[channels..lines]) <= position {
        return Err(NoValue::Absent);
    }
    let start = channels + COUNT + position * CHANNEL_SLOT;
    let end = start + CHANNEL_SLOT;
    Ok(pair_of(&store[start..end]))
}

// The channel at a position, in a store of a set with these limits.
pub fn channel_in(position: usize, store: &[u8], limits: Limits) -> Result<u16, NoValue>
    ensures { Answers (tuning limits position store.now) (told result) }
{
    if !is_store(store, limits) {
        return Err(NoValue::NotAStore);
    }
    tuned(position, store, limits)
}
