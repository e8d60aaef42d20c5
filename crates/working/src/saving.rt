// A store whose texts share one area, saved from a working copy, in which every text has a place of its own.
ghost use Rattle.std.specs.Prelude.{◌≡◌, [], ◌∷◌, ◌++◌, suc, ◌+◌, ◌-◌, ◌*◌, ◌/◌, ◌≤◌, ◌<◌, length, take};
ghost use borrow.Rule.Slice.PartMut.{put_mid, mid_of};
ghost use Rattle.tables.specs.Forms.{Roomy};
ghost use Rattle.shared_texts.specs.Moves.{gathered_heads, placed_units, saved_run};
ghost use Rattle.tables.specs.SharedLayout.{heads_size};
ghost use Rattle.shared_texts.specs.Shared.{SharedRoomy};
ghost use Rattle.working.specs.Runs.{slots_end, heads_end, slots_before, heads_before, in_turn, Small};
ghost use Rattle.working.specs.Saving.{own_size, gathered_in, texts_in_slots, next_text, worked_gap, TextsSaved, SumIn, IsArea, IsSaved};
ghost use Rattle.working.specs.Working.{SavedShared};

use super::heads::is_shared;
use super::parts::copy_run;
use super::runs::{LINES, TEXT_TABLES, heads_end, heads_size, run_of, slots_end};
use super::sums::{is_sized, text_bytes};
use shared_texts::Run;
use slots::bytes::{copy_padded, wipe};
use tables::limits::Limits;

// Saves a head: the slot's own bytes, and the number of units.
fn save_head(head: &mut [u8], own: &[u8], units: u8)
    requires { length head.old ≡ length own.now + 1 }
    ensures { head.new ≡ own.now ++ (units ∷ []) }
{
    let n = own.len();
    copy_padded(&mut head[0..n], own);
    head[n] = units;
}

// Saves the heads of a table's slots: own bytes of each, and how many units stand in the room bytes behind them.
fn save_heads(heads: &mut [u8], slots: &[u8], run: Run)
    requires { (length heads.old ≡ run.many * suc run.own) × (run.many * (run.own + run.room) ≤ length slots.now) × (run.own + run.room < 500) × (run.room ≡ run.room / 2 * 2) }
    ensures { heads.new ≡ gathered_heads run.own run.room run.many slots.now }
{
    let mut at = 0;
    let mut to = 0;
    for i in 0..run.many {
        let text = to + run.own;
        let next = text + run.room;
        let bytes = text_bytes(&slots[text..next]);
        let units = (bytes / 2) as u8;
        let last = at + run.own;
        let after = last + 1;
        save_head(&mut heads[at..after], &slots[to..text], units);
        at = after;
        to = next;
    }
}

// Saves the texts of a table's slots in the area, from a place on, as far as it has room for them. Answers where the next text goes.
fn save_texts(area: &mut [u8], slots: &[u8], run: Run, from: usize) -> usize
    requires { (run.many * (run.own + run.room) ≤ length slots.now) × (from ≤ length area.old) × (run.room ≡ run.room / 2 * 2) }
    ensures { (result ≤ length area.old) × (from + 2 * placed_units run.own run.room run.many slots.now ≤ length area.old → TextsSaved run.own run.room run.many slots.now from area.old result area.new) }
{
    let mut place = from;
    let mut to = 0;
    for i in 0..run.many {
        let text = to + run.own;
        let next = text + run.room;
        let bytes = text_bytes(&slots[text..next]);
        if area.len() - place < bytes {
            return place;
        }
        copy_run(area, place, slots, text, bytes);
        place += bytes;
        to = next;
    }
    place
}

// Saves a table's heads.
pub(crate) fn save_run(store: &mut [u8], work: &[u8], run: Run)
    requires { Small run × (heads_end run ≤ length store.old) × (slots_end run ≤ length work.now) }
    ensures { store.new ≡ put_mid run.start (own_size run) store.old (gathered_in run work.now) }
{
    let heads = run.start;
    let tail = heads_end(run);
    let from = run.from;
    let end = slots_end(run);
    save_heads(&mut store[heads..tail], &work[from..end], run);
}

// Saves a table's texts in the area from a place on, and answers where the next one's go.
pub(crate) fn save_run_texts(area: &mut [u8], work: &[u8], run: Run, place: usize) -> usize
    requires { Small run × (slots_end run ≤ length work.now) × (place ≤ length area.old) }
    ensures { (result ≤ length area.old) × (next_text run work.now place ≤ length area.old → (result ≡ next_text run work.now place) × (take result area.new ≡ take place area.old ++ texts_in_slots work.now run)) }
{
    let from = run.from;
    let end = slots_end(run);
    save_texts(area, &work[from..end], run, place)
}

// Saves the heads of the tables that have texts, with what stands before each.
fn save_tables(store: &mut [u8], work: &[u8], limits: Limits)
    requires { (heads_size limits ≤ length store.old) × (length work.now ≡ limits.size) × Roomy limits }
    ensures { take (heads_before limits 8) store.new ≡ in_turn (worked_gap limits work.now) (saved_run limits work.now) 8 }
{
    let mut heads = 0;
    let mut slots = 0;
    for k in 0..TEXT_TABLES {
        let run = run_of(limits, k);
        let n = run.start - heads;
        copy_run(store, heads, work, slots, n);
        save_run(store, work, run);
        heads = heads_end(run);
        slots = slots_end(run);
    }
}

// Saves the order of the lines, behind the last of the tables.
fn save_order(store: &mut [u8], work: &[u8], limits: Limits)
    requires { (heads_size limits ≤ length store.old) × (length work.now ≡ limits.size) × Roomy limits }
    ensures { take (heads_size limits) store.new ≡ take (heads_before limits 8) store.old ++ mid_of (slots_before limits 8) limits.lines work.now }
{
    let run = run_of(limits, LINES);
    let slots = slots_end(run);
    let heads = heads_end(run);
    copy_run(store, heads, work, slots, limits.lines);
}

// Saves the texts of all tables in the area, and zeros behind the last: of the old texts nothing is left.
fn save_area(area: &mut [u8], work: &[u8], limits: Limits)
    requires { (length work.now ≡ limits.size) × Roomy limits }
    ensures { SumIn limits work.now (length area.old) → IsArea limits work.now (length area.old) area.new }
{
    let mut place = 0;
    for k in 0..TEXT_TABLES {
        let run = run_of(limits, k);
        place = save_run_texts(area, work, run, place);
    }
    wipe(&mut area[place..]);
}

// Saves a whole working copy, where the area has room for its texts.
fn save_all(store: &mut [u8], work: &[u8], limits: Limits, area: usize)
    requires { (length store.old ≡ limits.size) × SharedRoomy limits area × (length work.now ≡ limits.size) × Roomy limits }
    ensures { SumIn limits work.now area → IsSaved limits area work.now store.new }
{
    save_tables(store, work, limits);
    save_order(store, work, limits);
    let start = heads_size(limits);
    let end = start + area;
    save_area(&mut store[start..end], work, limits);
    wipe(&mut store[end..]);
}

// Gathers the texts of a working copy into the area.
pub fn save_shared(store: &mut [u8], work: &[u8], limits: Limits, area: usize)
    ensures { SavedShared limits area work.now store.old store.new }
{
    if !is_shared(store, limits, area) {
        return;
    }
    if !is_sized(work, limits) {
        return;
    }
    save_all(store, work, limits, area);
}
