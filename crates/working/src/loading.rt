// A working copy, in which every text has a place of its own, loaded from a store whose texts share one area.
ghost use Rattle.std.specs.Prelude.{◌≡◌, true, ◌++◌, ◌↔◌, ℕ, suc, ◌+◌, ◌-◌, ◌*◌, ◌≤◌, ◌<◌, length, take, drop, replicate};
ghost use borrow.Rule.Slice.PartMut.{put_mid, mid_of};
ghost use Rattle.slots.specs.Slots.{pad};
ghost use Rattle.tables.specs.Forms.{Roomy};
ghost use Rattle.tables.specs.Layout.{used_size};
ghost use Rattle.shared_texts.specs.Moves.{spread, loaded_run};
ghost use Rattle.tables.specs.SharedLayout.{heads_size};
ghost use Rattle.shared_texts.specs.Regions.{last_bytes};
ghost use Rattle.shared_texts.specs.Shared.{SharedRoomy};
ghost use Rattle.working.specs.Loading.{slots_size, loaded_slots, next_place, stored_gap, TextsIn, IsLoaded};
ghost use Rattle.working.specs.Runs.{slots_end, heads_end, slots_before, heads_before, in_turn, Small};
ghost use Rattle.working.specs.Working.{LoadedShared};

use super::heads::{all_units, is_shared, wide};
use super::parts::{CHUNK, copy_run, move_chunk, wipe_chunk};
use super::runs::{LINES, SHORT, TEXT_TABLES, heads_end, heads_size, run_of, slots_end};
use super::sums::is_sized;
use shared_texts::Run;
use slots::bytes::{copy_padded, wipe};
use tables::limits::Limits;
use tables::places::{LINE_TEXT, MEMBER_TEXT, STATUS_TEXT};

// Loads a slot: its own bytes, then a text, then zeros.
fn load_exact(slot: &mut [u8], own: &[u8], text: &[u8])
    requires { length own.now ≤ length slot.old }
    ensures { slot.new ≡ own.now ++ pad 0 (length slot.old - length own.now) text.now }
{
    let n = own.len();
    copy_padded(&mut slot[0..n], own);
    copy_padded(&mut slot[n..], text);
}

// Whether a text of so many bytes can be moved as a whole chunk, with so many bytes left in the area and among the slots.
fn is_roomy(room: usize, bytes: usize, in_area: usize, in_slots: usize) -> bool
    ensures { (result ≡ true) ↔ ((bytes ≤ room) × (room ≤ 48) × (48 ≤ in_area) × (96 ≤ in_slots)) }
{
    if room < bytes {
        return false;
    }
    if CHUNK < room {
        return false;
    }
    if in_area < CHUNK {
        return false;
    }
    2 * CHUNK <= in_slots
}

// Loads a slot and zeros behind its text, also where slots follow, which are loaded after it.
fn load_chunks(
    slots: &mut [u8],
    to: usize,
    heads: &[u8],
    at: usize,
    area: &[u8],
    place: usize,
    own: usize,
    bytes: usize,
)
    requires { (to + own + 96 ≤ length slots.old) × (at + own ≤ length heads.now) × (place + 48 ≤ length area.now) × (bytes ≤ 48) }
    ensures { (room : ℕ) → bytes ≤ room → room ≤ 48 → take (to + own + room) slots.new ≡ take to slots.old ++ (mid_of at own heads.now ++ pad 0 room (mid_of place bytes area.now)) }
{
    copy_run(slots, to, heads, at, own);
    let text = to + own;
    move_chunk(slots, text, area, place);
    let end = text + bytes;
    wipe_chunk(slots, end);
}

// Loads the slot at a place: own bytes of the head at another, and so many of the area from a place on in room bytes.
fn load_slot(
    slots: &mut [u8],
    to: usize,
    heads: &[u8],
    at: usize,
    area: &[u8],
    place: usize,
    own: usize,
    room: usize,
    bytes: usize,
)
    requires { (to + own + room ≤ length slots.old) × (at + own ≤ length heads.now) × (place + bytes ≤ length area.now) }
    ensures { take (to + own + room) slots.new ≡ take to slots.old ++ (mid_of at own heads.now ++ pad 0 room (mid_of place bytes area.now)) }
{
    let text = to + own;
    if is_roomy(room, bytes, area.len() - place, slots.len() - text) {
        load_chunks(slots, to, heads, at, area, place, own, bytes);
        return;
    }
    let next = text + room;
    let last = at + own;
    let end = place + bytes;
    load_exact(&mut slots[to..next], &heads[at..last], &area[place..end]);
}

// Loads n slots of a table: own bytes of each head, and behind them the units that it counts from the area, from a place on, in room bytes. Answers where the next text starts.
fn load_table(
    slots: &mut [u8],
    heads: &[u8],
    area: &[u8],
    own: usize,
    room: usize,
    n: usize,
    from: usize,
) -> usize
    requires { (n * suc own ≤ length heads.now) × (length slots.old ≡ n * (own + room)) × (from + 2 * last_bytes own n heads.now ≤ length area.now) × (own + room < 1000) }
    ensures { (result ≡ from + 2 * last_bytes own n heads.now) × (slots.new ≡ spread own room n heads.now (drop from area.now)) }
{
    let width = own + room;
    let mut place = from;
    let mut at = 0;
    let mut to = 0;
    for i in 0..n {
        let last = at + own;
        let bytes = wide(heads[last]) * 2;
        load_slot(slots, to, heads, at, area, place, own, room, bytes);
        place += bytes;
        at = last + 1;
        to += width;
    }
    place
}

// The same, with the widths that tables have said as numbers, so that the compiler knows them.
fn load_widths(
    slots: &mut [u8],
    heads: &[u8],
    area: &[u8],
    own: usize,
    room: usize,
    n: usize,
    from: usize,
) -> usize
    requires { (n * suc own ≤ length heads.now) × (length slots.old ≡ n * (own + room)) × (from + 2 * last_bytes own n heads.now ≤ length area.now) × (own + room < 1000) }
    ensures { (result ≡ from + 2 * last_bytes own n heads.now) × (slots.new ≡ spread own room n heads.now (drop from area.now)) }
{
    if room != SHORT {
        return load_table(slots, heads, area, own, room, n, from);
    }
    if own == STATUS_TEXT {
        return load_table(slots, heads, area, STATUS_TEXT, SHORT, n, from);
    }
    if own == MEMBER_TEXT {
        return load_table(slots, heads, area, MEMBER_TEXT, SHORT, n, from);
    }
    if own == LINE_TEXT {
        return load_table(slots, heads, area, LINE_TEXT, SHORT, n, from);
    }
    load_table(slots, heads, area, own, SHORT, n, from)
}

// Loads a table, and answers where the next one's texts start.
pub(crate) fn load_run(work: &mut [u8], store: &[u8], texts: &[u8], run: Run, place: usize) -> usize
    requires { Small run × (slots_end run ≤ length work.old) × (heads_end run ≤ length store.now) × (next_place run store.now place ≤ length texts.now) }
    ensures { (result ≡ next_place run store.now place) × (work.new ≡ put_mid run.from (slots_size run) work.old (loaded_slots run store.now texts.now place)) }
{
    let from = run.from;
    let end = slots_end(run);
    let heads = run.start;
    let tail = heads_end(run);
    load_widths(
        &mut work[from..end],
        &store[heads..tail],
        texts,
        run.own,
        run.room,
        run.many,
        place,
    )
}

// Loads the tables that have texts, with what stands before each, from a store's heads and its area.
fn load_tables(work: &mut [u8], store: &[u8], texts: &[u8], limits: Limits)
    requires { (length work.old ≡ limits.size) × Roomy limits × (heads_size limits ≤ length store.now) × (texts.now ≡ mid_of (heads_size limits) (length texts.now) store.now) × TextsIn limits store.now (length texts.now) }
    ensures { take (slots_before limits 8) work.new ≡ in_turn (stored_gap limits store.now) (loaded_run limits (length texts.now) store.now) 8 }
{
    let mut heads = 0;
    let mut slots = 0;
    let mut place = 0;
    for k in 0..TEXT_TABLES {
        let run = run_of(limits, k);
        let n = run.start - heads;
        copy_run(work, slots, store, heads, n);
        place = load_run(work, store, texts, run, place);
        heads = heads_end(run);
        slots = slots_end(run);
    }
}

// Loads what stands behind the tables: the order of the lines, and zeros.
fn load_tail(work: &mut [u8], store: &[u8], limits: Limits)
    requires { (length work.old ≡ limits.size) × Roomy limits × (heads_size limits ≤ length store.now) }
    ensures { work.new ≡ take (slots_before limits 8) work.old ++ (mid_of (heads_before limits 8) limits.lines store.now ++ replicate (limits.size - used_size limits) 0) }
{
    let run = run_of(limits, LINES);
    let slots = slots_end(run);
    let heads = heads_end(run);
    let n = limits.lines;
    copy_run(work, slots, store, heads, n);
    let rest = slots + n;
    wipe(&mut work[rest..]);
}

// Loads a whole store whose heads count no more texts than the area has.
fn load_all(work: &mut [u8], store: &[u8], limits: Limits, area: usize)
    requires { (length work.old ≡ limits.size) × Roomy limits × (length store.now ≡ limits.size) × SharedRoomy limits area × TextsIn limits store.now area }
    ensures { IsLoaded limits area store.now work.new }
{
    let heads = heads_size(limits);
    let end = heads + area;
    load_tables(work, store, &store[heads..end], limits);
    load_tail(work, store, limits);
}

// Spreads the texts of a store into places of their own.
pub fn load_shared(work: &mut [u8], store: &[u8], limits: Limits, area: usize)
    ensures { LoadedShared limits area store.now work.old work.new }
{
    if !is_sized(work, limits) {
        return;
    }
    if !is_shared(store, limits, area) {
        return;
    }
    if area < all_units(store, limits) * 2 {
        return;
    }
    load_all(work, store, limits, area);
}
