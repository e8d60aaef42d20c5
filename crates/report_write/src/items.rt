// One parameter, by the type that was asked for.
ghost use Rattle.std.specs.Prelude.{◌≡◌, ◌&&◌};
ghost use Rattle.slots.specs.Slots.{zeros?};
ghost use Rattle.reports.specs.TableSlots.{slot_width};
ghost use Rattle.report_write.specs.ItemWriters.{Ready, WritesEntry, WritesItem, may_be_empty};

use super::fixed::{write_hash, write_home, write_key, write_system};
use super::listed::{
    write_channel, write_group, write_individual, write_line, write_quick, write_status,
};
use reports::Asked;
use slots::bytes::is_zeros;
use tables::places::{CHANNEL_SLOT, LINE_SLOT, MEMBER_SLOT, QUICK_SLOT, STATUS_SLOT};

// The most bytes that a parameter has: a quick text's.
pub const ITEM: usize = 51;

// How wide a slot of the type's table is.
fn width_of(asked: Asked) -> usize
    ensures { result ≡ slot_width asked }
{
    match asked {
        Asked::Groups => MEMBER_SLOT,
        Asked::Individuals => MEMBER_SLOT,
        Asked::Lines => LINE_SLOT,
        Asked::Key => 4,
        Asked::QuickTexts => QUICK_SLOT,
        Asked::Home => 4,
        Asked::Channels => CHANNEL_SLOT,
        Asked::System => 3,
        Asked::StatusTexts => STATUS_SLOT,
        Asked::Hash => 11,
    }
}

// Whether a slot of the type's table can be empty. The key's, the home numbers', the system code's and the hash's always keep an entry.
fn can_be_empty(asked: Asked) -> bool
    ensures { result ≡ may_be_empty asked }
{
    !matches!(
        asked,
        Asked::Key | Asked::Home | Asked::System | Asked::Hash
    )
}

fn is_empty(asked: Asked, slot: &[u8]) -> bool
    ensures { result ≡ (may_be_empty asked && zeros? slot.now) }
{
    can_be_empty(asked) && is_zeros(slot)
}

// The parameter of the entry that a slot keeps.
fn write_entry(buffer: &mut [u8], asked: Asked, slot: &[u8], place: usize, rank: usize) -> usize
    requires { Ready asked slot.now buffer.old }
    ensures { WritesEntry asked slot.now place rank buffer.old buffer.new result }
{
    match asked {
        Asked::Groups => write_group(buffer, slot, rank),
        Asked::Individuals => write_individual(buffer, slot, rank),
        Asked::Lines => write_line(buffer, slot, rank),
        Asked::Key => write_key(buffer, slot),
        Asked::QuickTexts => write_quick(buffer, slot, place),
        Asked::Home => write_home(buffer, slot),
        Asked::Channels => write_channel(buffer, slot, rank),
        Asked::System => write_system(buffer, slot),
        Asked::StatusTexts => write_status(buffer, slot, place, rank),
        Asked::Hash => write_hash(buffer, slot),
    }
}

// The parameter of the entry in a slot of the type's table, at the start of a buffer of at least 51 bytes: its length, 0 where the slot is empty.
pub fn write_item(buffer: &mut [u8], asked: Asked, slot: &[u8], place: usize, rank: usize) -> usize
    ensures { WritesItem asked slot.now place rank buffer.old buffer.new result }
{
    if buffer.len() < ITEM {
        return 0;
    }
    if slot.len() != width_of(asked) {
        return 0;
    }
    if is_empty(asked, slot) {
        return 0;
    }
    write_entry(buffer, asked, slot, place, rank)
}
