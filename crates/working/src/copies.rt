// A working copy of all tables of a store, or of the part of them that a request touches.
ghost use Rattle.working.specs.Copies.{CopyLoaded, CopySaved, CopySum};

use super::areas::kind_bytes;
use super::part_loading::load_part;
use super::part_saving::save_part;
use super::working::{load, save};
use tables::limits::{Limits, Texts};
use writing::Kind;

// All of them, or hash, key, home, system and the table of one kind more.
// No Option<Kind>, which would be no plainer: a copy of all tables is no missing kind, and `Copy::Whole` says so.
#[derive(Clone, Copy)]
pub enum Copy {
    Whole,
    Part(Kind),
}

// The tables of the store come to the working copy.
pub fn load_copy(work: &mut [u8], store: &[u8], limits: Limits, copy: Copy)
    ensures { CopyLoaded limits copy store.now work.old work.new }
{
    match copy {
        Copy::Whole => load(work, store, limits),
        Copy::Part(kind) => match limits.texts {
            Texts::Placed => {}
            Texts::Shared(area) => load_part(work, store, limits, area, kind),
        },
    }
}

// Those of the working copy come to the store that it was loaded from; of a part, the bytes that no table uses are used on the way.
pub fn save_copy(store: &mut [u8], work: &mut [u8], limits: Limits, copy: Copy)
    ensures { CopySaved limits copy work.old store.old store.new }
{
    match copy {
        Copy::Whole => save(store, work, limits),
        Copy::Part(kind) => match limits.texts {
            Texts::Placed => {}
            Texts::Shared(area) => save_part(store, work, limits, area, kind),
        },
    }
}

// The bytes that the texts of the one table take that a copy of part has; 0 for a copy of all, of which nobody asks it.
pub fn copy_bytes(store: &[u8], limits: Limits, copy: Copy) -> usize
    ensures { CopySum limits copy store.now result }
{
    match copy {
        Copy::Whole => 0,
        Copy::Part(kind) => kind_bytes(store, limits, kind),
    }
}
