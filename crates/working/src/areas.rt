// What is asked of the heads and the area for any limits, tables and bytes: where these are none of a store's, 0 or a table without rows.
ghost use Rattle.std.specs.Prelude.{◌≡◌, true, ◌↔◌, ◌≤◌, ◌<◌, length};
ghost use Rattle.tables.specs.SharedLayout.{heads_size};
ghost use Rattle.shared_texts.specs.Shared.{text_runs, counted_before};
ghost use Rattle.working.specs.Areas.{Countable, InHeads};
ghost use Rattle.working.specs.Loading.{UnitsAre};
ghost use Rattle.working.specs.Runs.{run_of, Small, Inside};
ghost use Rattle.working.specs.Working.{StoreSum, KindSum};

use super::heads::{all_units, run_units};
use super::runs::{TEXT_TABLES, heads_size, number_of, run_of};
use shared_texts::Run;
use tables::limits::{Limits, Texts};
use tables::places::{COUNTED, ORDERED};
use writing::Kind;

const NO_ROWS: Run = Run {
    start: 0,
    from: 0,
    own: 0,
    room: 0,
    many: 0,
};

// Whether a count has room for as many channels, and an order for as many lines.
fn countable(limits: Limits) -> bool
    ensures { (result ≡ true) ↔ Countable limits }
{
    if COUNTED < limits.channels {
        return false;
    }
    limits.lines <= ORDERED
}

// Table k.
pub fn table_run(limits: Limits, k: usize) -> Run
    ensures { k < 8 → Countable limits → (result ≡ run_of limits k) × Small result × Inside limits result }
{
    if TEXT_TABLES <= k {
        return NO_ROWS;
    }
    if !countable(limits) {
        return NO_ROWS;
    }
    run_of(limits, k)
}

// Where the area starts, behind the heads.
pub fn area_at(limits: Limits) -> usize
    ensures { (result ≤ 200000) × (Countable limits → result ≡ heads_size limits) }
{
    if !countable(limits) {
        return 0;
    }
    heads_size(limits)
}

// The units that the heads of all tables count.
pub fn units_in(store: &[u8], limits: Limits) -> usize
    ensures { (result ≤ 520200) × (Countable limits → heads_size limits ≤ length store.now → UnitsAre limits store.now result) }
{
    if !countable(limits) {
        return 0;
    }
    if store.len() < heads_size(limits) {
        return 0;
    }
    all_units(store, limits)
}

// The bytes that all texts of a store take, which its heads count; they are not counted where each has a place of its own.
pub fn stored_bytes(store: &[u8], limits: Limits) -> usize
    ensures { StoreSum limits store.now result }
{
    match limits.texts {
        Texts::Placed => 0,
        Texts::Shared(_) => units_in(store, limits) * 2,
    }
}

// The units of all texts before row n of table k, which has a head: those of the tables before it, and of the rows before it there.
pub(crate) fn units_to(store: &[u8], limits: Limits, k: usize, n: usize) -> usize
    requires { InHeads limits store.now k n }
    ensures { (result ≡ counted_before store.now (text_runs limits) k n) × (result ≤ 585225) }
{
    let mut sum = 0;
    for i in 0..k {
        let run = run_of(limits, i);
        sum += run_units(store, run, run.many);
    }
    sum + run_units(store, run_of(limits, k), n)
}

// Whether the row has a head in these bytes.
fn has_head(store: &[u8], limits: Limits, k: usize, n: usize) -> bool
    ensures { (result ≡ true) ↔ InHeads limits store.now k n }
{
    if TEXT_TABLES <= k {
        return false;
    }
    if !countable(limits) {
        return false;
    }
    if store.len() < heads_size(limits) {
        return false;
    }
    let run = run_of(limits, k);
    n <= run.many
}

// The bytes that the texts of the table of a kind take in a store, 0 for a kind without texts.
pub fn kind_bytes(store: &[u8], limits: Limits, kind: Kind) -> usize
    ensures { KindSum limits kind store.now result }
{
    let Some(k) = number_of(kind) else {
        return 0;
    };
    if !has_head(store, limits, k, 0) {
        return 0;
    }
    let run = run_of(limits, k);
    run_units(store, run, run.many) * 2
}

// The units of all texts before row n of table k: those of the tables before it, and of the rows before it there.
pub fn units_before(store: &[u8], limits: Limits, k: usize, n: usize) -> usize
    ensures { (result ≤ 585225) × (InHeads limits store.now k n → result ≡ counted_before store.now (text_runs limits) k n) }
{
    if !has_head(store, limits, k, n) {
        return 0;
    }
    units_to(store, limits, k, n)
}
