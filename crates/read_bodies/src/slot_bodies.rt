// Settings of a slot: one group, one individual or one line.
ghost use Rattle.std.specs.Prelude.{◌≡◌, ℕ};
ghost use Rattle.settings.specs.Meant.{BodyAt};
ghost use Rattle.read_bodies.specs.Refused.{SlotRefused};
ghost use Rattle.writing.specs.declared.Kind.{Kind};

use super::flags::{group_flags, individual_flags, line_flags};
use super::heads::head;
use plan::numbers::{GroupAddress, IndividualAddress};
use read_fields::addresses::address_refused;
use read_fields::entries::read_contact;
use read_fields::texts::read_text;
use settings::settings::{GroupPlace, IndividualPlace, LinePlace, Setting};
use writing::{Coding, Operation};

// Whether a slot is out of range. An individual has no attribute: 1 stands for it.
fn slot_refused(operation: Operation, attribute: u8, address: u32) -> bool
    ensures { SlotRefused operation attribute address result }
{
    match operation {
        Operation::Add => attribute == 0 || address_refused(address),
        Operation::Delete => false,
        Operation::Replace => true, // 11 in D1 and D2
    }
}

pub fn read_group(m: &[u8], p: usize, operations: u8, coding: Coding) -> Option<(Setting, usize)>
    ensures { operations ≡ 2 → (left : ℕ) → BodyAt coding Kind.Group left m.now p result }
{
    let (n, operation) = head(m, p, 5, operations)?;
    let flags = group_flags(n / 0x100_0000);
    let address = (n % 0x100_0000) as u32;
    if slot_refused(operation, flags.attribute, address) {
        return None;
    }
    let (text, next) = read_text(m, p + 5, 16, coding)?;
    let index = (n / 0x100_0000 % 16) as u8;
    let address = GroupAddress(address);
    let place = GroupPlace {
        index,
        address,
        text,
    };
    Some((Setting::Group(operation, flags, place), next))
}

pub fn read_individual(
    m: &[u8],
    p: usize,
    operations: u8,
    coding: Coding,
) -> Option<(Setting, usize)>
    ensures { operations ≡ 2 → (left : ℕ) → BodyAt coding Kind.Individual left m.now p result }
{
    let (n, operation) = head(m, p, 5, operations)?;
    let address = (n % 0x100_0000) as u32;
    if slot_refused(operation, 1, address) {
        return None;
    }
    let (text, next) = read_text(m, p + 5, 16, coding)?;
    let flags = individual_flags(n / 0x100_0000);
    let index = (n / 0x100_0000 % 16) as u8;
    let address = IndividualAddress(address);
    let place = IndividualPlace {
        index,
        address,
        text,
    };
    Some((Setting::Individual(operation, flags, place), next))
}

// A line slot, whose number and text are held to their ranges in a delete too.
pub fn read_line_slot(
    m: &[u8],
    p: usize,
    operations: u8,
    coding: Coding,
) -> Option<(Setting, usize)>
    ensures { operations ≡ 2 → (left : ℕ) → BodyAt coding Kind.LineSlot left m.now p result }
{
    let (n, operation) = head(m, p, 2, operations)?;
    let (contact, next) = read_contact(m, p + 2, coding)?;
    let flags = line_flags(n);
    let index = (n % 16) as u8;
    let place = LinePlace { index, contact };
    Some((Setting::LineSlot(operation, flags, place), next))
}
