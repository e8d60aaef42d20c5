// Starting a store.
ghost use Rattle.lists.specs.Ladder.{Answers};
ghost use Rattle.tables.specs.Store.{starting, begins};

use super::limits::{Limits, roomy};
use super::places::KEY;
use slots::bytes::wipe;

#[derive(Clone, Copy)]
pub enum Started {
    Fresh,
    WrongSize,
}

// Any bytes of the limits' size become a fresh store. Other bytes stay, and so do all where the tables have no room.
pub fn start(store: &mut [u8], limits: Limits) -> Started
    ensures { Answers (starting limits store.old) (begins result store.new) }
{
    if store.len() != limits.size {
        return Started::WrongSize;
    }
    if !roomy(limits) {
        return Started::WrongSize;
    }
    wipe(store);
    store[KEY] = 16;
    Started::Fresh
}
