// The two forms of a store: each text in a place of its own, or all in one area, where an entry keeps how many units its text has.
ghost use Rattle.std.specs.Prelude.{◌≡◌, ◌+◌, ◌*◌, ◌≤◌};
ghost use Rattle.store_check.specs.Checks.{text_width};
ghost use Rattle.store_check.specs.Stores.{StartsIn};

use tables::head_places::{
    GROUP_CONTACT_HEADS, GROUP_HEADS, INDIVIDUAL_CONTACT_HEADS, INDIVIDUAL_HEADS, LINE_SLOT_HEADS,
    SHARED_CHANNELS, STATUS_HEADS,
};
use tables::places::{
    CHANNELS, GROUP_CONTACTS, GROUPS, INDIVIDUAL_CONTACTS, INDIVIDUALS, LINE_SLOTS, STATUS,
};

#[derive(Clone, Copy)]
pub(crate) enum Form {
    Placed,
    Shared,
}

// The most units of a quick text, and of any other.
pub(crate) const QUICK_UNITS: u8 = 23;

pub(crate) const SHORT_UNITS: u8 = 16;

// How many bytes an entry has for a text of at most so many units.
pub(crate) fn text_width(form: Form, most: u8) -> usize
    ensures { (result ≡ text_width form most) × (result ≤ 1 + 2 * most) }
{
    match form {
        Form::Placed => most as usize * 2,
        Form::Shared => 1,
    }
}

// Where the tables behind the quick texts start; the lines start where the channels end.
#[derive(Clone, Copy)]
pub(crate) struct Starts {
    pub(crate) status: usize,
    pub(crate) groups: usize,
    pub(crate) individuals: usize,
    pub(crate) line_slots: usize,
    pub(crate) group_contacts: usize,
    pub(crate) individual_contacts: usize,
    pub(crate) channels: usize,
}

const PLACED: Starts = Starts {
    status: STATUS,
    groups: GROUPS,
    individuals: INDIVIDUALS,
    line_slots: LINE_SLOTS,
    group_contacts: GROUP_CONTACTS,
    individual_contacts: INDIVIDUAL_CONTACTS,
    channels: CHANNELS,
};

const SHARED: Starts = Starts {
    status: STATUS_HEADS,
    groups: GROUP_HEADS,
    individuals: INDIVIDUAL_HEADS,
    line_slots: LINE_SLOT_HEADS,
    group_contacts: GROUP_CONTACT_HEADS,
    individual_contacts: INDIVIDUAL_CONTACT_HEADS,
    channels: SHARED_CHANNELS,
};

pub(crate) fn starts_of(form: Form) -> Starts
    ensures { StartsIn form result }
{
    match form {
        Form::Placed => PLACED,
        Form::Shared => SHARED,
    }
}
