// Settings that hold a list of contacts with an address: group contacts and individual contacts.
ghost use Rattle.std.specs.Prelude.{◌≡◌, ℕ};
ghost use Rattle.settings.specs.Meant.{BodyAt};
ghost use Rattle.writing.specs.declared.Kind.{Kind};

use super::flags::{group_flags, individual_flags};
use super::heads::head;
use read_fields::entries::{Listed, walk_entries};
use settings::settings::{Entries, Setting};
use writing::Coding;

// Group contacts, whose attribute is not 00 in any operation.
pub fn read_group_contacts(
    m: &[u8],
    p: usize,
    operations: u8,
    coding: Coding,
) -> Option<(Setting, usize)>
    ensures { operations ≡ 3 → (left : ℕ) → BodyAt coding Kind.GroupContacts left m.now p result }
{
    let (n, operation) = head(m, p, 3, operations)?;
    let flags = group_flags(n / 0x100);
    if flags.attribute == 0 {
        return None;
    }
    let start = p + 3;
    let count = (n % 0x100) as usize;
    let next = walk_entries(m, start, count, Listed::Addressed, coding)?;
    let entries = Entries {
        start,
        count,
        next,
        coding,
    };
    Some((Setting::GroupContacts(operation, flags, entries), next))
}

pub fn read_individual_contacts(
    m: &[u8],
    p: usize,
    operations: u8,
    coding: Coding,
) -> Option<(Setting, usize)>
    ensures { operations ≡ 3 → (left : ℕ) → BodyAt coding Kind.IndividualContacts left m.now p result }
{
    let (n, operation) = head(m, p, 2, operations)?;
    let flags = individual_flags(n);
    let start = p + 2;
    let count = (n % 256) as usize;
    let next = walk_entries(m, start, count, Listed::Addressed, coding)?;
    let entries = Entries {
        start,
        count,
        next,
        coding,
    };
    Some((Setting::IndividualContacts(operation, flags, entries), next))
}
