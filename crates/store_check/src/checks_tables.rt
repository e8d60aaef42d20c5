// Whether bytes are a table, slot by slot.
ghost use Rattle.std.specs.Prelude.{◌≡◌, true, ◌↔◌, ℕ, ◌*◌, ◌<◌, length};
ghost use Rattle.store_check.specs.declared.forms.Form.TheVariants.{Placed, Shared};
ghost use Rattle.store_check.specs.Checks.{width_in, PlacesIn};

use super::checks_slots::{
    channel_slot, every, line_head, line_slot, member_slot, quick_slot, status_slot,
};
use super::forms::{Form, QUICK_UNITS, SHORT_UNITS, text_width};
use tables::head_places::{LINE_HEAD, MEMBER_HEAD, QUICK_HEAD, STATUS_HEAD};
use tables::members::Members;
use tables::places::{
    CHANNEL_SLOT, LINE_SLOT, LINE_TEXT, MEMBER_SLOT, MEMBER_TEXT, QUICK_SLOT, STATUS_SLOT,
    STATUS_TEXT,
};

// The tables that are made of slots.
#[derive(Clone, Copy)]
pub(crate) enum Table {
    QuickTexts,
    StatusTexts,
    Members(Members),
    Channels,
    Lines,
}

// How many bytes a slot has: what an entry keeps beside its text, and what stands for that.
pub(crate) fn width(form: Form, t: Table) -> usize
    ensures { (result ≡ width_in form t) × (result < 64) }
{
    match t {
        Table::QuickTexts => text_width(form, QUICK_UNITS),
        Table::StatusTexts => STATUS_TEXT + text_width(form, SHORT_UNITS),
        Table::Members(_) => MEMBER_TEXT + text_width(form, SHORT_UNITS),
        Table::Channels => CHANNEL_SLOT,
        Table::Lines => LINE_TEXT + text_width(form, SHORT_UNITS),
    }
}

fn placed_ok(t: Table, s: &[u8]) -> bool
    ensures { (n : ℕ) → length s.now ≡ n * width_in Placed t → (result ≡ true) ↔ PlacesIn Placed t n s.now }
{
    match t {
        Table::QuickTexts => every::<QUICK_SLOT, _>(s, |x| quick_slot(Form::Placed, x)),
        Table::StatusTexts => every::<STATUS_SLOT, _>(s, |x| status_slot(Form::Placed, x)),
        Table::Members(who) => every::<MEMBER_SLOT, _>(s, |x| member_slot(Form::Placed, who, x)),
        Table::Channels => every::<CHANNEL_SLOT, _>(s, |x| channel_slot(x)),
        Table::Lines => every::<LINE_SLOT, _>(s, |x| line_slot(x)),
    }
}

fn shared_ok(t: Table, s: &[u8]) -> bool
    ensures { (n : ℕ) → length s.now ≡ n * width_in Shared t → (result ≡ true) ↔ PlacesIn Shared t n s.now }
{
    match t {
        Table::QuickTexts => every::<QUICK_HEAD, _>(s, |x| quick_slot(Form::Shared, x)),
        Table::StatusTexts => every::<STATUS_HEAD, _>(s, |x| status_slot(Form::Shared, x)),
        Table::Members(who) => every::<MEMBER_HEAD, _>(s, |x| member_slot(Form::Shared, who, x)),
        Table::Channels => every::<CHANNEL_SLOT, _>(s, |x| channel_slot(x)),
        Table::Lines => every::<LINE_HEAD, _>(s, |x| line_head(x)),
    }
}

// Whether every slot is empty or an entry's.
pub(crate) fn places_ok(form: Form, t: Table, s: &[u8]) -> bool
    ensures { (n : ℕ) → length s.now ≡ n * width_in form t → (result ≡ true) ↔ PlacesIn form t n s.now }
{
    match form {
        Form::Placed => placed_ok(t, s),
        Form::Shared => shared_ok(t, s),
    }
}
