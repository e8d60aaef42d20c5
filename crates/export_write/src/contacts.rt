// Writes group and individual contacts as settings.
ghost use Rattle.std.specs.Prelude.{◌≡◌, [], ◌+◌, ◌≤◌, length};
ghost use Rattle.writing.specs.declared.Operation.TheVariants.{Replace};
ghost use Rattle.writing.specs.Canonical.{canonical};
ghost use Rattle.writing.specs.Settings.{unicode16};
ghost use Rattle.tables.specs.Layout.{member_width};
ghost use Rattle.tables.specs.Members.{member_ok, member_bytes};
ghost use Rattle.export_write.specs.ContactSettings.{clearing_flags, contacts_setting, contact_add};
ghost use Rattle.export_write.specs.ContactWriters.{contact_type, flag_size, flag_bytes, clear_room, contact_room, contacts_room, WritesContacts};
ghost use Rattle.export_write.specs.Writers.{Kept, Wrote, WritesSetting};

use super::texts::write_text;
use super::writers::{FIRST, NOTHING, Settings, start_setting, write_bytes};
use slots::slots::used;
use tables::members::Members;
use tables::places::{MEMBER_SLOT, MEMBER_TEXT};

// The bytes of 254 contacts, for which a request has settings.
const MOST: usize = 254 * MEMBER_SLOT;

fn contact_type(which: Members) -> u8
    ensures { result ≡ contact_type which }
{
    match which {
        Members::OfGroups => 0xC8,
        Members::OfIndividuals => 0xC9,
    }
}

// The bytes of the replace, and the most of adds of so many contacts.
fn room_for(which: Members, contacts: usize) -> usize
    requires { contacts ≤ 254 }
    ensures { (result ≡ contacts_room which contacts) × (result ≤ 10928) }
{
    match which {
        Members::OfGroups => 6 + contacts * 43,
        Members::OfIndividuals => 5 + contacts * 42,
    }
}

// The bytes of an add between DataLength and Count: the operation and the flags.
fn write_flags(buffer: &mut [u8], at: usize, which: Members, flags: u8) -> usize
    requires { at + flag_size which ≤ length buffer.old }
    ensures { (result ≡ at + flag_size which) × Wrote (flag_bytes which flags) at buffer.old buffer.new result }
{
    match which {
        Members::OfGroups => {
            let bytes = [64 + flags / 4, flags % 4 * 64];
            write_bytes(buffer, at, &bytes)
        }
        Members::OfIndividuals => {
            let byte = [64 + flags % 16 * 4];
            write_bytes(buffer, at, &byte)
        }
    }
}

// A replace with Count 0. A group's attribute is 01 in it: 00 is out of range.
fn write_clearing(buffer: &mut [u8], at: usize, which: Members) -> usize
    requires { at + clear_room which ≤ length buffer.old }
    ensures { (result ≡ at + clear_room which) × Wrote (canonical unicode16 (contacts_setting which Replace (clearing_flags which) [])) at buffer.old buffer.new result }
{
    match which {
        Members::OfGroups => {
            let replace = [0xC8, 0, 5, 0xD0, 0, 0];
            write_bytes(buffer, at, &replace)
        }
        Members::OfIndividuals => {
            let replace = [0xC9, 0, 4, 0xC0, 0];
            write_bytes(buffer, at, &replace)
        }
    }
}

// An add of the contact in a slot.
fn write_contact(buffer: &mut [u8], at: usize, which: Members, slot: &[u8]) -> usize
    requires { (length slot.now ≡ member_width) × (at + contact_room which ≤ length buffer.old) }
    ensures { WritesSetting (Kept (member_ok which) (member_bytes which) slot.now) (contact_add which) at (contact_room which) buffer.old buffer.new result }
{
    let count = write_flags(buffer, at + 3, which, slot[0]);
    let bytes = [1, slot[1], slot[2], slot[3]];
    let text = write_bytes(buffer, count, &bytes);
    let end = write_text(buffer, text, &slot[MEMBER_TEXT..MEMBER_SLOT]);
    start_setting(buffer, at, contact_type(which), end)
}

// A replace with Count 0, then an add for each contact of a region of the store.
pub fn export_contacts(buffer: &mut [u8], which: Members, region: &[u8]) -> Settings
    ensures { WritesContacts which region.now buffer.old buffer.new result }
{
    if MOST < region.len() {
        return NOTHING;
    }
    if buffer.len() < FIRST + room_for(which, region.len() / MEMBER_SLOT) {
        return NOTHING;
    }
    let mut end = write_clearing(buffer, FIRST, which);
    let contacts = used(region, MEMBER_SLOT);
    for slot in region[0..contacts].chunks_exact(MEMBER_SLOT) {
        end = write_contact(buffer, end, which, slot);
    }
    Settings {
        end,
        count: 1 + (contacts / MEMBER_SLOT) as u8,
    }
}
