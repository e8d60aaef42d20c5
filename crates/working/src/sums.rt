// The bytes that texts take in a working copy, two for each unit.
ghost use Rattle.std.specs.Prelude.{◌≡◌, true, ◌↔◌, ◌+◌, ◌*◌, ◌/◌, ◌≤◌, ◌<◌, length};
ghost use Rattle.tables.specs.Forms.{Roomy};
ghost use Rattle.tables.specs.Store.{TableSum, WorkSum};
ghost use Rattle.shared_texts.specs.Moves.{placed_units, run_sum};
ghost use Rattle.working.specs.Runs.{slots_end, Small};
ghost use Rattle.working.specs.Saving.{SumIs, UnitEnds, TextEnds};

use super::runs::{TEXT_TABLES, number_of, run_of, slots_end};
use shared_texts::Run;
use tables::limits::{Limits, roomy};
use writing::Kind;

// Whether the bytes are a working copy's, which are as many as the limits say and have room for the tables.
pub(crate) fn is_sized(work: &[u8], limits: Limits) -> bool
    ensures { (result ≡ true) ↔ ((length work.now ≡ limits.size) × Roomy limits) }
{
    if work.len() != limits.size {
        return false;
    }
    roomy(limits)
}

// Whether the unit at a place is 0. Its low byte is looked at first, which is 0 in few others: most units take one test.
fn is_end(place: &[u8], at: usize) -> bool
    requires { at + 1 < length place.now }
    ensures { (result ≡ true) ↔ UnitEnds place.now at }
{
    if place[at + 1] != 0 {
        return false;
    }
    place[at] == 0
}

// Where the text ends that stands in a place of whole units: at the first unit that is 0.
pub(crate) fn text_bytes(place: &[u8]) -> usize
    requires { length place.now ≡ length place.now / 2 * 2 }
    ensures { TextEnds place.now result }
{
    let units = place.len() / 2;
    for i in 0..units {
        if is_end(place, i * 2) {
            return i * 2;
        }
    }
    place.len()
}

// The bytes of the texts that stand in a table's slots.
fn slots_bytes(slots: &[u8], run: Run) -> usize
    requires { (run.many * (run.own + run.room) ≤ length slots.now) × (run.own + run.room < 500) × (run.many ≤ 255) × (run.room ≡ run.room / 2 * 2) }
    ensures { (result ≡ 2 * placed_units run.own run.room run.many slots.now) × (result ≤ 500 * run.many) }
{
    let mut sum = 0;
    let mut at = 0;
    for i in 0..run.many {
        let text = at + run.own;
        let next = text + run.room;
        sum += text_bytes(&slots[text..next]);
        at = next;
    }
    sum
}

// The same of a table.
fn run_bytes(work: &[u8], run: Run) -> usize
    requires { Small run × (slots_end run ≤ length work.now) }
    ensures { (result ≡ run_sum work.now run) × (result ≤ 127500) }
{
    let from = run.from;
    let end = slots_end(run);
    slots_bytes(&work[from..end], run)
}

// And of all tables.
fn all_bytes(work: &[u8], limits: Limits) -> usize
    requires { (length work.now ≡ limits.size) × Roomy limits }
    ensures { SumIs limits work.now result }
{
    let mut sum = 0;
    for k in 0..TEXT_TABLES {
        let run = run_of(limits, k);
        sum += run_bytes(work, run);
    }
    sum
}

// The bytes that the texts of the table of a kind take, 0 for a kind without texts.
pub fn table_bytes(work: &[u8], limits: Limits, kind: Kind) -> usize
    ensures { TableSum limits kind work.now result }
{
    if !is_sized(work, limits) {
        return 0;
    }
    let Some(k) = number_of(kind) else {
        return 0;
    };
    let run = run_of(limits, k);
    run_bytes(work, run)
}

// The bytes that all texts take.
pub fn work_bytes(work: &[u8], limits: Limits) -> usize
    ensures { WorkSum limits work.now result }
{
    if !is_sized(work, limits) {
        return 0;
    }
    all_bytes(work, limits)
}
