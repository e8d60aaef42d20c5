// Writes group and individual slots as settings.
ghost use Rattle.std.specs.Prelude.{◌≡◌, cond, ◌+◌, ◌≤◌, ◌<◌, length};
ghost use Rattle.slots.specs.Slots.{zeros?};
ghost use Rattle.tables.specs.Layout.{member_width};
ghost use Rattle.tables.specs.Limits.{slot_places};
ghost use Rattle.export_write.specs.MemberWriters.{MemberSlotIn, member_type, flags_at, member_head, member_setting, WritesMembers};
ghost use Rattle.export_write.specs.Writers.{WritesSetting};

use super::texts::write_text;
use super::writers::{FIRST, NOTHING, Settings, start_setting, write_bytes};
use slots::bytes::is_zeros;
use tables::members::Members;
use tables::places::{MEMBER_SIZE, MEMBER_SLOT, MEMBER_TEXT, SLOT_PLACES};

fn type_of(which: Members) -> u8
    ensures { result ≡ member_type which }
{
    match which {
        Members::OfGroups => 0xD1,
        Members::OfIndividuals => 0xD2,
    }
}

// The kept flags in their place among the first 16 bits.
fn flag_bits(which: Members, flags: u8) -> u32
    ensures { (result ≡ flags_at which flags) × (result ≤ 261120) }
{
    match which {
        Members::OfGroups => flags as u32 * 64,
        Members::OfIndividuals => flags as u32 * 1024,
    }
}

// 2, to delete, where the slot is empty; else 1, to add.
fn operation(slot: &[u8]) -> u32
    ensures { (result ≡ cond (zeros? slot.now) 2 1) × (result ≤ 2) }
{
    if is_zeros(slot) { 2 } else { 1 }
}

// The first 16 bits of the setting of a slot.
fn member_bits(which: Members, index: u8, slot: &[u8]) -> u32
    requires { length slot.now ≡ member_width }
    ensures { result ≡ member_head which index slot.now }
{
    operation(slot) * 16384 + flag_bits(which, slot[0]) + index as u32
}

// An add of what the slot holds; of an empty slot, whose address and text are 0 and empty, a delete.
fn write_member(buffer: &mut [u8], at: usize, which: Members, index: u8, slot: &[u8]) -> usize
    requires { (length slot.now ≡ member_width) × (at + 42 ≤ length buffer.old) × (index < slot_places) }
    ensures { WritesSetting (MemberSlotIn which slot.now) (member_setting which index) at 42 buffer.old buffer.new result }
{
    let head = member_bits(which, index, slot);
    let bytes = [
        (head / 256 % 256) as u8,
        (head % 256) as u8,
        slot[1],
        slot[2],
        slot[3],
    ];
    let text = write_bytes(buffer, at + 3, &bytes);
    let end = write_text(buffer, text, &slot[MEMBER_TEXT..MEMBER_SLOT]);
    start_setting(buffer, at, type_of(which), end)
}

// The sixteen settings of a table of slots.
pub fn export_members(buffer: &mut [u8], which: Members, region: &[u8]) -> Settings
    ensures { WritesMembers which region.now buffer.old buffer.new result }
{
    if region.len() != MEMBER_SIZE {
        return NOTHING;
    }
    if buffer.len() < FIRST + 672 {
        return NOTHING;
    }
    let mut end = FIRST;
    for (index, slot) in region.chunks_exact(MEMBER_SLOT).enumerate() {
        end = write_member(buffer, end, which, index as u8, slot);
    }
    Settings {
        end,
        count: SLOT_PLACES as u8,
    }
}
