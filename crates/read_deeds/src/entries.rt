// The next entry of a setting, and the entries that are left after it.
ghost use Rattle.std.specs.Prelude.{◌≡◌};
ghost use Rattle.read_deeds.specs.ReadDeeds.{contact_entries, line_entries, quick_entries, status_entries, Passed, NextOf, NextChannel, NextEntry};

use super::codes::{line_key, number_code};
use super::deeds::{Deed, Left, Put, Turn, doing};
use read_fields::channels::channel_at;
use read_fields::entries::{read_addressed, read_contact, read_quick, read_status};
use read_fields::texts::TextPlace;
use writing::{Coding, Kind};

// No text.
const NO_TEXT: TextPlace = TextPlace {
    start: 0,
    units: 0,
    coding: Coding::Unicode16,
};

// What is done with an entry, and those that are left, from a place on.
fn pass(left: Left, put: Put, next: usize) -> Turn
    ensures { Passed left put next result }
{
    if left.count == 0 {
        return Turn {
            deed: Deed::Nothing,
            left,
        };
    }
    let kind = left.kind;
    let operation = left.operation;
    let mut rest = left;
    rest.start = next;
    rest.count = left.count - 1;
    Turn {
        deed: doing(kind, operation, put),
        left: rest,
    }
}

// No entry stands there.
fn stay(left: Left) -> Turn
    ensures { result.left ≡ left }
{
    Turn {
        deed: Deed::Nothing,
        left,
    }
}

// A group or individual contact.
fn next_contact(m: &[u8], left: Left) -> Turn
    ensures { NextOf contact_entries m.now left result }
{
    let Some((place, next)) = read_addressed(m, left.start, left.coding) else {
        return stay(left);
    };
    let text = place.text;
    let put = Put {
        key: place.address as u64,
        name: place.address as u64,
        hidden: left.hidden,
        text,
    };
    pass(left, put, next)
}

// A line contact.
fn next_line(m: &[u8], left: Left) -> Turn
    ensures { NextOf line_entries m.now left result }
{
    let Some((place, next)) = read_contact(m, left.start, left.coding) else {
        return stay(left);
    };
    let digits = place.number;
    let text = place.text;
    let code = number_code(m, digits);
    let put = Put {
        key: line_key(code, left.pabx),
        name: code,
        hidden: false,
        text,
    };
    pass(left, put, next)
}

// A quick text.
fn next_quick(m: &[u8], left: Left) -> Turn
    ensures { NextOf quick_entries m.now left result }
{
    let Some((place, next)) = read_quick(m, left.start, 0, left.coding) else {
        return stay(left);
    };
    let text = place.text;
    let put = Put {
        key: place.index as u64,
        name: 0,
        hidden: false,
        text,
    };
    pass(left, put, next)
}

// A status text; code 32 has the first place.
fn next_status(m: &[u8], left: Left) -> Turn
    ensures { NextOf status_entries m.now left result }
{
    let Some((place, next)) = read_status(m, left.start, left.coding) else {
        return stay(left);
    };
    if place.index < 32 {
        return stay(left);
    }
    let text = place.text;
    let put = Put {
        key: (place.index - 32) as u64,
        name: 0,
        hidden: false,
        text,
    };
    pass(left, put, next)
}

// A channel.
fn next_channel(m: &[u8], left: Left) -> Turn
    ensures { NextChannel m.now left result }
{
    if left.total < left.count {
        return stay(left);
    }
    let channel = channel_at(m, left.start, left.total - left.count);
    let put = Put {
        key: channel as u64,
        name: 0,
        hidden: false,
        text: NO_TEXT,
    };
    pass(left, put, left.start)
}

// The next of the entries that are left.
pub fn next_entry(m: &[u8], left: Left) -> Turn
    ensures { NextEntry m.now left result }
{
    let kind = left.kind;
    match kind {
        Kind::GroupContacts | Kind::IndividualContacts => next_contact(m, left),
        Kind::Lines => next_line(m, left),
        Kind::QuickTexts => next_quick(m, left),
        Kind::StatusTexts => next_status(m, left),
        Kind::Channels => next_channel(m, left),
        _ => stay(left),
    }
}
