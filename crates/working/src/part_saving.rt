// A store saved from a working copy of part of the tables: hash, key, home and system, and the table of one kind more.
ghost use Rattle.std.specs.Prelude.{◌≡◌, ◌+◌, ◌*◌, ◌≤◌, ◌<◌, length};
ghost use borrow.Rule.Slice.PartMut.{put_mid, mid_of};
ghost use Rattle.slots.specs.Slots.{pad};
ghost use Rattle.tables.specs.Forms.{Roomy};
ghost use Rattle.tables.specs.Layout.{channels_at, channels_size, used_size};
ghost use Rattle.tables.specs.SharedLayout.{heads_size, shared_channels_at};
ghost use Rattle.shared_texts.specs.Shared.{SharedRoomy};
ghost use Rattle.working.specs.PartSaving.{joined_texts, RegionSaved, TableSaved};
ghost use Rattle.working.specs.Parts.{PartSaved};
ghost use Rattle.working.specs.Runs.{slots_end, Small};
ghost use Rattle.working.specs.Saving.{next_text};

use super::areas::units_to;
use super::heads::{all_units, is_shared, run_units};
use super::part_loading::{count_of, order_of};
use super::parts::copy_run;
use super::runs::{LINES, heads_end, heads_size, number_of, run_of, slots_end};
use super::saving::{save_run, save_run_texts};
use super::sums::is_sized;
use shared_texts::Run;
use slots::bytes::wipe;
use tables::head_places::SHARED_CHANNELS;
use tables::limits::Limits;
use tables::places::{CHANNEL_SLOT, CHANNELS, COUNT, QUICK};
use writing::Kind;

// How many bytes the tables take in a working copy.
fn used_size(limits: Limits) -> usize
    requires { (limits.channels < 65536) × (limits.lines ≤ 255) }
    ensures { result ≡ used_size limits }
{
    slots_end(run_of(limits, LINES)) + limits.lines
}

// Saves the heads of table k, with the count before them and the order behind them.
fn save_region(store: &mut [u8], work: &[u8], limits: Limits, k: usize)
    requires { (k < 8) × (heads_size limits ≤ length store.old) × (length work.now ≡ limits.size) × Roomy limits }
    ensures { RegionSaved limits k work.now store.old store.new }
{
    let run = run_of(limits, k);
    let lead = count_of(k);
    let to = run.start - lead;
    let from = run.from - lead;
    copy_run(store, to, work, from, lead);
    save_run(store, work, run);
    let heads = heads_end(run);
    let slots = slots_end(run);
    let order = order_of(limits, k);
    copy_run(store, heads, work, slots, order);
}

// Saves a table's texts in the area from a place on, and behind them n bytes that stood from another place on, by way of the spare bytes of the copy; of the old texts nothing is left.
fn join_texts(
    area: &mut [u8],
    work: &mut [u8],
    run: Run,
    spare: usize,
    place: usize,
    behind: usize,
    n: usize,
)
    requires { Small run × (slots_end run ≤ spare) × (spare + n ≤ length work.old) × (place ≤ length area.old) × (behind + n ≤ length area.old) }
    ensures { next_text run work.old place + n ≤ length area.old → area.new ≡ pad 0 (length area.old) (joined_texts run work.old place behind n area.old) }
{
    copy_run(work, spare, area, behind, n);
    let next = save_run_texts(area, work, run, place);
    if area.len() - next < n {
        return;
    }
    copy_run(area, next, work, spare, n);
    let end = next + n;
    wipe(&mut area[end..]);
}

// Saves table k, where the area has room for all texts.
fn save_table(store: &mut [u8], work: &mut [u8], limits: Limits, area: usize, k: usize)
    requires { (k < 8) × (length store.old ≡ limits.size) × SharedRoomy limits area × (length work.old ≡ limits.size) × Roomy limits }
    ensures { TableSaved limits area k work.old store.old store.new }
{
    let run = run_of(limits, k);
    let before = units_to(store, limits, k, 0);
    let own = run_units(store, run, run.many);
    let place = before * 2;
    let behind = (before + own) * 2;
    let total = all_units(store, limits) * 2;
    if area < total {
        return;
    }
    let n = total - behind;
    let spare = used_size(limits);
    if work.len() - spare < n {
        return;
    }
    save_region(store, work, limits, k);
    let start = heads_size(limits);
    let end = start + area;
    join_texts(&mut store[start..end], work, run, spare, place, behind, n);
}

// Saves the channels, which have no texts.
fn save_channels(store: &mut [u8], work: &[u8], limits: Limits)
    requires { (heads_size limits ≤ length store.old) × (length work.now ≡ limits.size) × Roomy limits }
    ensures { store.new ≡ put_mid shared_channels_at (channels_size limits) store.old (mid_of channels_at (channels_size limits) work.now) }
{
    let n = COUNT + limits.channels * CHANNEL_SLOT;
    copy_run(store, SHARED_CHANNELS, work, CHANNELS, n);
}

// Saves what a copy of part of the tables has in the store that it was loaded from; the copy's bytes that no table uses are used on the way.
pub fn save_part(store: &mut [u8], work: &mut [u8], limits: Limits, area: usize, kind: Kind)
    ensures { PartSaved limits area kind work.old store.old store.new }
{
    if !is_shared(store, limits, area) {
        return;
    }
    if !is_sized(work, limits) {
        return;
    }
    copy_run(store, 0, work, 0, QUICK);
    if let Some(k) = number_of(kind) {
        save_table(store, work, limits, area, k);
        return;
    }
    match kind {
        Kind::Channels => save_channels(store, work, limits),
        _ => {}
    }
}
