// Entries at a place of a message: line contacts, contacts with an address, quick texts and status texts, one at a time and as many as were counted.
ghost use Rattle.read_fields.specs.Entries.{ContactAt, AddressedAt, QuickAt, StatusAt, form_of, range_of, PassAt, EntriesAt};
ghost use Rattle.writing.specs.Ranges.{text_limits};

use super::addresses::address_refused;
use super::bytes::{number, remaining};
use super::numbers::{NumberPlace, read_number};
use super::texts::{TextPlace, read_text};
use writing::Coding;

#[derive(Clone, Copy)]
pub struct ContactPlace {
    pub number: NumberPlace,
    pub text: TextPlace,
}

// A group or individual contact: its address by number.
#[derive(Clone, Copy)]
pub struct AddressedPlace {
    pub address: u32,
    pub text: TextPlace,
}

// A quick text by its index, a status text by its code.
#[derive(Clone, Copy)]
pub struct EntryPlace {
    pub index: u8,
    pub text: TextPlace,
}

// Which entries a list has: line contacts, contacts with an address, quick texts of at least so many units, or status texts.
#[derive(Clone, Copy)]
pub enum Listed {
    Contacts,
    Addressed,
    QuickTexts(usize),
    StatusTexts,
}

// The most units of a text, and of a quick text.
const SHORT: usize = 16;

const QUICK: usize = 23;

pub fn read_contact(m: &[u8], at: usize, coding: Coding) -> Option<(ContactPlace, usize)>
    ensures { ContactAt coding text_limits m.now at result }
{
    let (number, p) = read_number(m, at)?;
    let (text, next) = read_text(m, p, SHORT, coding)?;
    Some((ContactPlace { number, text }, next))
}

// A group or individual contact, whose address is in range.
pub fn read_addressed(m: &[u8], at: usize, coding: Coding) -> Option<(AddressedPlace, usize)>
    ensures { AddressedAt coding text_limits m.now at result }
{
    if remaining(m, at) < 3 {
        return None;
    }
    let address = (number(m, at, 3) % 0x100_0000) as u32;
    if address_refused(address) {
        return None;
    }
    let (text, next) = read_text(m, at + 3, SHORT, coding)?;
    Some((AddressedPlace { address, text }, next))
}

// A quick text of at least so many units: 1, or 0 in a delete.
pub fn read_quick(m: &[u8], at: usize, least: usize, coding: Coding) -> Option<(EntryPlace, usize)>
    ensures { QuickAt coding text_limits least m.now at result }
{
    if remaining(m, at) < 1 {
        return None;
    }
    let index = (number(m, at, 1) % 64) as u8;
    let (text, next) = read_text(m, at + 1, QUICK, coding)?;
    if text.units < least {
        return None;
    }
    Some((EntryPlace { index, text }, next))
}

pub fn read_status(m: &[u8], at: usize, coding: Coding) -> Option<(EntryPlace, usize)>
    ensures { StatusAt coding text_limits m.now at result }
{
    if remaining(m, at) < 1 {
        return None;
    }
    let index = (number(m, at, 1) % 256) as u8;
    if !(32..=127).contains(&index) {
        return None;
    }
    let (text, next) = read_text(m, at + 1, SHORT, coding)?;
    Some((EntryPlace { index, text }, next))
}

// The place after the entry that stands at a place.
fn pass_entry(m: &[u8], at: usize, list: Listed, coding: Coding) -> Option<usize>
    ensures { PassAt (form_of list coding) (range_of list text_limits) m.now at result }
{
    match list {
        Listed::Contacts => Some(read_contact(m, at, coding)?.1),
        Listed::Addressed => Some(read_addressed(m, at, coding)?.1),
        Listed::QuickTexts(least) => Some(read_quick(m, at, least, coding)?.1),
        Listed::StatusTexts => Some(read_status(m, at, coding)?.1),
    }
}

// The place after as many entries as were counted.
pub fn walk_entries(
    m: &[u8],
    at: usize,
    count: usize,
    list: Listed,
    coding: Coding,
) -> Option<usize>
    ensures { EntriesAt list coding text_limits m.now at count result }
{
    let mut p = at;
    for _ in 0..count {
        p = pass_entry(m, p, list, coding)?;
    }
    Some(p)
}
