// The tables of a working copy, place by place.
ghost use Rattle.std.specs.Prelude.{◌≡◌, ◌<◌, length};
ghost use Rattle.tables.specs.Forms.{Roomy};
ghost use Rattle.reports.specs.TableSlots.{slot_count, slot_width, slots_start};
ghost use Rattle.reporting.specs.Walks.{PlaceWritten, SizeIs};

use report_write::items::{ITEM, write_item};
use reports::Asked;
use tables::limits::Limits;
use tables::places::{
    CHANNEL_SLOT, CHANNELS, CONTACT_PLACES, COUNT, GROUP_CONTACTS, HASH, HOME, INDIVIDUAL_CONTACTS,
    KEY, LINE_SLOT, MEMBER_SLOT, QUICK, QUICK_PLACES, QUICK_SLOT, STATUS, STATUS_PLACES,
    STATUS_SLOT, SYSTEM,
};

// Where the slots of a type's table start.
fn start_of(asked: Asked, limits: Limits) -> usize
    requires { Roomy limits }
    ensures { result ≡ slots_start limits asked }
{
    match asked {
        Asked::Groups => GROUP_CONTACTS + COUNT,
        Asked::Individuals => INDIVIDUAL_CONTACTS + COUNT,
        Asked::Lines => CHANNELS + (COUNT + limits.channels * CHANNEL_SLOT) + COUNT,
        Asked::Key => KEY,
        Asked::QuickTexts => QUICK,
        Asked::Home => HOME,
        Asked::Channels => CHANNELS + COUNT,
        Asked::System => SYSTEM,
        Asked::StatusTexts => STATUS,
        Asked::Hash => HASH,
    }
}

// How wide one of them is.
fn width_of(asked: Asked) -> usize
    ensures { result ≡ slot_width asked }
{
    match asked {
        Asked::Groups => MEMBER_SLOT,
        Asked::Individuals => MEMBER_SLOT,
        Asked::Lines => LINE_SLOT,
        Asked::Key => HOME - KEY,
        Asked::QuickTexts => QUICK_SLOT,
        Asked::Home => SYSTEM - HOME,
        Asked::Channels => CHANNEL_SLOT,
        Asked::System => QUICK - SYSTEM,
        Asked::StatusTexts => STATUS_SLOT,
        Asked::Hash => KEY - HASH,
    }
}

// How many there are.
pub(crate) fn places_of(asked: Asked, limits: Limits) -> usize
    ensures { result ≡ slot_count limits asked }
{
    match asked {
        Asked::Groups => CONTACT_PLACES,
        Asked::Individuals => CONTACT_PLACES,
        Asked::Lines => limits.lines,
        Asked::Key => 1,
        Asked::QuickTexts => QUICK_PLACES,
        Asked::Home => 1,
        Asked::Channels => limits.channels,
        Asked::System => 1,
        Asked::StatusTexts => STATUS_PLACES,
        Asked::Hash => 1,
    }
}

// The parameter in a place of the type's table, at the start of a scratch of at least 51 bytes: its length, 0 where the place is empty.
pub(crate) fn write_place(
    scratch: &mut [u8],
    asked: Asked,
    work: &[u8],
    limits: Limits,
    place: usize,
    rank: usize,
) -> usize
    requires { Roomy limits × (length work.now ≡ limits.size) × (place < slot_count limits asked) }
    ensures { PlaceWritten limits asked work.now place rank scratch.old scratch.new result }
{
    let width = width_of(asked);
    let start = start_of(asked, limits) + place * width;
    let end = start + width;
    write_item(scratch, asked, &work[start..end], place, rank)
}

// Its length alone.
pub(crate) fn place_size(
    asked: Asked,
    work: &[u8],
    limits: Limits,
    place: usize,
    rank: usize,
) -> usize
    requires { Roomy limits × (length work.now ≡ limits.size) × (place < slot_count limits asked) }
    ensures { SizeIs limits asked work.now place rank result }
{
    let mut scratch = [0u8; ITEM];
    write_place(&mut scratch, asked, work, limits, place, rank)
}
