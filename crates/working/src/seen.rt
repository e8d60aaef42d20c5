// What is read of a store: its tables with each text in a place of its own.
ghost use Rattle.std.specs.Prelude.{◌≡◌};
ghost use Rattle.tables.specs.Store.{StoreOf};
ghost use Rattle.working.specs.Seen.{Lends, Seen, Filled, seen_of};

use super::working::load;
use tables::limits::{Limits, Texts};

// Loads a working copy where it is to be read.
fn fill(work: &mut [u8], store: &[u8], limits: Limits)
    ensures { Filled limits.texts limits store.now work.old work.new }
{
    match limits.texts {
        Texts::Placed => {}
        Texts::Shared(_) => load(work, store, limits),
    }
}

// One of the two: the store where its texts have places of their own, and the working copy otherwise.
fn pick<'a>(store: &'a [u8], work: &'a [u8], texts: Texts) -> &'a [u8]
    ensures { result.now ≡ seen_of texts store.now work.now }
{
    match texts {
        Texts::Placed => store,
        Texts::Shared(_) => work,
    }
}

// The store itself where its texts have places of their own, and otherwise a working copy of it, which is loaded.
pub fn seen<'a>(store: &'a [u8], work: &'a mut [u8], limits: Limits) -> &'a [u8]
    ensures { StoreOf limits store.now → Lends limits work.old → Seen limits store.now result.now }
{
    fill(work, store, limits);
    pick(store, work, limits.texts)
}
