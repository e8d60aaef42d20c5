// A working copy of part of the tables, loaded from a store whose texts share one area: a small change needs few of them.
ghost use Rattle.std.specs.Prelude.{◌≡◌, ◌+◌, ◌≤◌, ◌<◌, length};
ghost use borrow.Rule.Slice.PartMut.{put_mid, mid_of};
ghost use Rattle.tables.specs.Forms.{Roomy};
ghost use Rattle.tables.specs.Layout.{channels_size, channels_at};
ghost use Rattle.tables.specs.SharedLayout.{shared_channels_at};
ghost use Rattle.shared_texts.specs.Shared.{SharedRoomy};
ghost use Rattle.working.specs.PartLoading.{count_of, order_of, channels?, RowsLoaded, TableLoaded, KindLoaded};
ghost use Rattle.working.specs.Parts.{PartLoaded};

use super::areas::units_before;
use super::heads::{is_shared, run_units};
use super::loading::load_run;
use super::parts::copy_run;
use super::runs::{LINES, heads_end, heads_size, number_of, run_of, slots_end};
use super::sums::is_sized;
use tables::head_places::SHARED_CHANNELS;
use tables::limits::Limits;
use tables::places::{CHANNEL_SLOT, CHANNELS, COUNT, QUICK};
use writing::Kind;

// The number of the first list; the tables before it have no count.
const LISTS: usize = 5;

// How many bytes a table has before its rows: a list has its count there.
pub(crate) fn count_of(k: usize) -> usize
    ensures { result ≡ count_of k }
{
    if k < LISTS { 0 } else { COUNT }
}

// How many it has behind them: the lines have their order there.
pub(crate) fn order_of(limits: Limits, k: usize) -> usize
    ensures { result ≡ order_of limits k }
{
    if k == LINES { limits.lines } else { 0 }
}

// Whether a kind is that of the one list without texts.
fn is_channels(kind: Kind) -> bool
    ensures { result ≡ channels? kind }
{
    matches!(kind, Kind::Channels)
}

// Loads the rows of table k; where its texts do not fit the area, the bytes are no store's.
fn load_rows(work: &mut [u8], store: &[u8], limits: Limits, area: usize, k: usize)
    requires { (k < 8) × (length work.old ≡ limits.size) × Roomy limits × (length store.now ≡ limits.size) × SharedRoomy limits area }
    ensures { RowsLoaded limits area store.now k work.old work.new }
{
    let run = run_of(limits, k);
    let place = units_before(store, limits, k, 0) * 2;
    let bytes = run_units(store, run, run.many) * 2;
    if area < place + bytes {
        return;
    }
    let heads = heads_size(limits);
    let end = heads + area;
    load_run(work, store, &store[heads..end], run, place);
}

// Loads table k, with its count and its order where it has them.
fn load_table_part(work: &mut [u8], store: &[u8], limits: Limits, area: usize, k: usize)
    requires { (k < 8) × (length work.old ≡ limits.size) × Roomy limits × (length store.now ≡ limits.size) × SharedRoomy limits area }
    ensures { TableLoaded limits area store.now k work.old work.new }
{
    let run = run_of(limits, k);
    let count = count_of(k);
    copy_run(work, run.from - count, store, run.start - count, count);
    load_rows(work, store, limits, area, k);
    copy_run(
        work,
        slots_end(run),
        store,
        heads_end(run),
        order_of(limits, k),
    );
}

// Loads the channels.
fn load_channels(work: &mut [u8], store: &[u8], limits: Limits)
    requires { (length work.old ≡ limits.size) × Roomy limits × (shared_channels_at + channels_size limits ≤ length store.now) }
    ensures { work.new ≡ put_mid channels_at (channels_size limits) work.old (mid_of shared_channels_at (channels_size limits) store.now) }
{
    let size = COUNT + limits.channels * CHANNEL_SLOT;
    copy_run(work, CHANNELS, store, SHARED_CHANNELS, size);
}

// Loads the table of a kind; those at the front are loaded for every kind.
fn load_kind(work: &mut [u8], store: &[u8], limits: Limits, area: usize, kind: Kind)
    requires { (length work.old ≡ limits.size) × Roomy limits × (length store.now ≡ limits.size) × SharedRoomy limits area }
    ensures { KindLoaded limits area store.now kind work.old work.new }
{
    if is_channels(kind) {
        load_channels(work, store, limits);
        return;
    }
    if let Some(k) = number_of(kind) {
        load_table_part(work, store, limits, area, k);
    }
}

// Loads hash, key, home and system, and the table of one kind, where all bytes are 0; every other byte stays 0.
pub fn load_part(work: &mut [u8], store: &[u8], limits: Limits, area: usize, kind: Kind)
    ensures { PartLoaded limits area kind store.now work.old work.new }
{
    if !is_sized(work, limits) {
        return;
    }
    if !is_shared(store, limits, area) {
        return;
    }
    copy_run(work, 0, store, 0, QUICK);
    load_kind(work, store, limits, area, kind);
}
