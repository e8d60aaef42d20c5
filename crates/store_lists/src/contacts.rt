// What a setting does to the table of group or of individual contacts, which is a region of a store. The kinds differ in their byte of flags alone.
ghost use Rattle.store_lists.specs.Lists.{ContactSlot, ContactsApplied};

use super::keyed::step_contact;
use read_fields::entries::{AddressedPlace, read_addressed};
use settings::settings::Entries;
use tables::filling::fill_slot;
use tables::heads::head_of;
use tables::places::MEMBER_SLOT;
use tables::replacing::empty_to_replace;
use writing::Operation;

// The slot of a contact that stands at a place of the message, with a byte of flags.
fn contact_slot(m: &[u8], flags: u8, place: AddressedPlace) -> [u8; MEMBER_SLOT]
    ensures { ContactSlot m.now flags place result }
{
    let head = head_of(flags, place.address);
    let mut slot = [0u8; MEMBER_SLOT];
    fill_slot(&mut slot, &head, m, place.text);
    slot
}

// Applies the contacts of a setting in order, until there is no room: was there?
pub fn apply_contacts(
    list: &mut [u8],
    m: &[u8],
    operation: Operation,
    flags: u8,
    entries: Entries,
) -> bool
    ensures { ContactsApplied operation m.now flags entries list.old list.new result }
{
    empty_to_replace(list, operation);
    let coding = entries.coding;
    let mut p = entries.start;
    for _ in 0..entries.count {
        let Some((place, next)) = read_addressed(m, p, coding) else {
            return false;
        };
        let slot = contact_slot(m, flags, place);
        if !step_contact(list, operation, &slot) {
            return false;
        }
        p = next;
    }
    true
}
