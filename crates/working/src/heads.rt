// The heads of a store whose texts share one area, and the area.
ghost use Rattle.std.specs.Prelude.{◌≡◌, true, ◌↔◌, ℕ, suc, ◌*◌, ◌≤◌, ◌<◌, length};
ghost use Rattle.shared_texts.specs.Regions.{last_bytes};
ghost use Rattle.tables.specs.SharedLayout.{heads_size};
ghost use Rattle.shared_texts.specs.Shared.{run_units, SharedRoomy};
ghost use Rattle.working.specs.Loading.{UnitsAre};
ghost use Rattle.working.specs.Runs.{heads_end, Small};

use super::runs::{TEXT_TABLES, heads_end, heads_size, run_of};
use shared_texts::Run;
use tables::limits::Limits;
use tables::places::{COUNTED, ORDERED};

// A byte as a number of any size.
pub(crate) fn wide(x: u8) -> usize
    ensures { (result ≡ x) × (result < 256) }
{
    x as usize
}

// The units that the first n heads count: the last byte of each slot, behind own others.
fn counted(heads: &[u8], own: usize, n: usize) -> usize
    requires { (n * suc own ≤ length heads.now) × (own < 1000) × (n < 1000) }
    ensures { (result ≡ last_bytes own n heads.now) × (result ≤ 255 * n) }
{
    let mut sum = 0;
    let mut at = 0;
    for i in 0..n {
        let last = at + own;
        sum += wide(heads[last]);
        at = last + 1;
    }
    sum
}

// The units that the first n heads of a table count.
pub(crate) fn run_units(store: &[u8], run: Run, n: usize) -> usize
    requires { Small run × (heads_end run ≤ length store.now) × (n ≤ run.many) }
    ensures { (result ≡ run_units store.now n run) × (result ≤ 65025) }
{
    let start = run.start;
    let end = heads_end(run);
    counted(&store[start..end], run.own, n)
}

// The units that the heads of all tables count.
pub(crate) fn all_units(store: &[u8], limits: Limits) -> usize
    requires { (limits.channels < 65536) × (limits.lines ≤ 255) × (heads_size limits ≤ length store.now) }
    ensures { UnitsAre limits store.now result × (result ≤ 520200) }
{
    let mut sum = 0;
    for k in 0..TEXT_TABLES {
        let run = run_of(limits, k);
        sum += run_units(store, run, run.many);
    }
    sum
}

// Whether the bytes are a store's, which are as many as the limits say and have room for the heads and the area.
pub(crate) fn is_shared(store: &[u8], limits: Limits, area: usize) -> bool
    ensures { (result ≡ true) ↔ ((length store.now ≡ limits.size) × SharedRoomy limits area) }
{
    if store.len() != limits.size {
        return false;
    }
    if COUNTED < limits.channels {
        return false;
    }
    if ORDERED < limits.lines {
        return false;
    }
    let heads = heads_size(limits);
    if limits.size < heads {
        return false;
    }
    area <= limits.size - heads
}
