// A working copy of a store, in which every text has a place of its own, however the store is laid out.
ghost use Rattle.tables.specs.Store.{Loaded, Saved};

use super::loading::load_shared;
use super::saving::save_shared;
use slots::bytes::copy;
use tables::limits::{Limits, Texts};

// The tables of the store come to the working copy.
pub fn load(work: &mut [u8], store: &[u8], limits: Limits)
    ensures { Loaded limits store.now work.old work.new }
{
    match limits.texts {
        Texts::Placed => copy(work, store),
        Texts::Shared(area) => load_shared(work, store, limits, area),
    }
}

// The tables of the working copy come to the store.
pub fn save(store: &mut [u8], work: &[u8], limits: Limits)
    ensures { Saved limits work.now store.old store.new }
{
    match limits.texts {
        Texts::Placed => copy(store, work),
        Texts::Shared(area) => save_shared(store, work, limits, area),
    }
}
