// What a row shows: the place of its text, or the number of what it names.
ghost use Rattle.std.specs.Prelude.{ℕ, ◌+◌, ◌*◌, ◌^◌, ◌≤◌, ◌<◌, ◌≡◌, Some};
ghost use Rattle.lists.specs.Ladder.{Answers};
ghost use Rattle.slots.specs.Slots.{u24};
ghost use Rattle.tables.specs.Forms.{Roomy};
ghost use Rattle.tables.specs.Store.{StoreOf};
ghost use Rattle.screen.specs.Naming.{Slotted, SlotIs, hidden, TextIs, NameIs, naming};

use super::areas::{Span, shared_text};
use super::rows::{Refusal, Row};
use super::spots::spot_of;
use plan::numbers::{GroupAddress, IndividualAddress};
use slots::bytes::is_zeros;
use slots::slots::used;
use store_check::checks::is_store;
use tables::forms::by_form;
use tables::limits::{Limits, Texts, roomy};
use tables::places::{LINE_DIGITS, MEMBER_ADDRESS};
use working::areas::table_run;
use working::runs::TEXT_TABLES;

// A row's slot in the store, and where its own bytes end: there stands its text, or how many units that has.
#[derive(Clone, Copy)]
pub struct Slot {
    pub start: usize,
    pub text: usize,
    pub end: usize,
}

// A text in the store, digits in the store, or an address whose number is to be written.
#[derive(Clone, Copy)]
pub enum Name {
    Refused(Refusal),
    Text(usize, usize),
    Digits(usize),
    Group(GroupAddress),
    Individual(IndividualAddress),
}

// Place n of a table of slots that starts at base.
fn slot_in(n: usize, places: usize, base: usize, width: usize, head: usize) -> Option<Slot>
    requires { (base + places * width < 2 ^ 64) × (head ≤ width) }
    ensures { Slotted base places n width head result }
{
    if n < places {
        let start = base + n * width;
        Some(Slot {
            start: start,
            text: start + head,
            end: start + width,
        })
    } else {
        None
    }
}

// Where the row's slot stands: docs/STORE.md.
fn slot_of(row: Row, limits: Limits) -> Option<Slot>
    requires { Roomy limits }
    ensures { SlotIs limits row result }
{
    let spot = spot_of(row);
    let k = spot.table;
    if TEXT_TABLES <= k {
        return None;
    }
    let run = table_run(limits, k);
    let texts = limits.texts;
    let base = by_form(texts, run.from, run.start);
    let width = by_form(texts, run.own + run.room, run.own + 1);
    slot_in(spot.place, run.many, base, width, run.own)
}

// The same, of any limits: where the tables have no room in their store, no row has a slot.
pub fn row_slot(row: Row, limits: Limits) -> Option<Slot>
    ensures { Roomy limits → SlotIs limits row result }
{
    if !roomy(limits) {
        return None;
    }
    slot_of(row, limits)
}

// A byte as a number.
fn wide(x: u8) -> u32
    ensures { (result ≡ x) × (result < 256) }
{
    x as u32
}

// The number of three bytes, high byte first.
pub fn address_of(s: &[u8]) -> u32
    ensures { (a : ℕ) → s.now ≡ u24 a → result ≡ a }
{
    if s.len() != 3 {
        return 0;
    }
    wide(s[0]) * 65536 + wide(s[1]) * 256 + wide(s[2])
}

// Whether the flags of the row's slot are those of a background group, which has no row.
fn is_hidden(row: Row, flags: u8) -> bool
    ensures { result ≡ hidden row flags }
{
    match row {
        Row::Group(_) | Row::GroupContact(_) => flags / 64 == 1,
        _ => false,
    }
}

// Where the text of a row with this slot stands: in its place in the slot, or in the area.
fn text_in(store: &[u8], row: Row, slot: Slot, limits: Limits) -> Span
    requires { StoreOf limits store.now × SlotIs limits row (Some slot) }
    ensures { TextIs limits store.now row result }
{
    let text = slot.text;
    let end = slot.end;
    let texts = limits.texts;
    match texts {
        Texts::Placed => {
            let bytes = used(&store[text..end], 2);
            Span {
                start: text,
                bytes: bytes,
            }
        }
        Texts::Shared(_) => shared_text(store, limits, spot_of(row), text),
    }
}

// What stands in a row of a store.
fn name_in(store: &[u8], row: Row, limits: Limits) -> Name
    requires { StoreOf limits store.now }
    ensures { NameIs limits store.now row result }
{
    let Some(slot) = slot_of(row, limits) else {
        return Name::Refused(Refusal::Absent);
    };
    let start = slot.start;
    let text = slot.text;
    let end = slot.end;
    if is_zeros(&store[start..end]) {
        return Name::Refused(Refusal::Absent);
    }
    if is_hidden(row, store[start]) {
        return Name::Refused(Refusal::Absent);
    }
    let shown = text_in(store, row, slot, limits);
    let bytes = shown.bytes;
    if bytes != 0 {
        return Name::Text(shown.start, bytes);
    }
    let head = start + MEMBER_ADDRESS;
    let digits = start + LINE_DIGITS;
    match row {
        Row::Line(_) | Row::LineSlot(_) => Name::Digits(digits),
        Row::Group(_) | Row::GroupContact(_) => {
            Name::Group(GroupAddress(address_of(&store[head..text])))
        }
        Row::Individual(_) | Row::IndividualContact(_) => {
            Name::Individual(IndividualAddress(address_of(&store[head..text])))
        }
        _ => Name::Text(shown.start, bytes),
    }
}

// What stands in a row, where scratch and store are what they have to be.
pub fn name_of(store: &[u8], room: usize, row: Row, limits: Limits) -> Name
    ensures { Answers (naming limits store.now room row) result }
{
    if room < 36 {
        return Name::Refused(Refusal::ScratchSize);
    }
    if !is_store(store, limits) {
        return Name::Refused(Refusal::NotAStore);
    }
    name_in(store, row, limits)
}
