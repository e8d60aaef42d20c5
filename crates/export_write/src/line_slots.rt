// Writes line slots as settings.
ghost use Rattle.std.specs.Prelude.{◌≡◌, ◌+◌, ◌≤◌, ◌<◌, length};
ghost use Rattle.tables.specs.Layout.{line_width};
ghost use Rattle.tables.specs.Limits.{slot_places};
ghost use Rattle.export_write.specs.LineSettings.{line_slot_setting};
ghost use Rattle.export_write.specs.LineWriters.{LineSlotIn, WritesLineSlots};
ghost use Rattle.export_write.specs.Writers.{WritesSetting};

use super::lines::write_fields;
use super::writers::{FIRST, NOTHING, Settings, start_setting, write_bytes};
use slots::bytes::is_zeros;
use tables::places::{LINE_SLOT, LINE_SLOTS_SIZE, SLOT_PLACES};

// An add of what the slot holds; of an empty slot a delete, whose number is the digit 0, since a number has one digit at least.
fn write_line_slot(buffer: &mut [u8], at: usize, index: u8, slot: &[u8]) -> usize
    requires { (length slot.now ≡ line_width) × (at + 49 ≤ length buffer.old) × (index < slot_places) }
    ensures { WritesSetting (LineSlotIn slot.now) (line_slot_setting index) at 49 buffer.old buffer.new result }
{
    if is_zeros(slot) {
        let delete = [0x80, index, 0x0F, 0, 0];
        let end = write_bytes(buffer, at + 3, &delete);
        return start_setting(buffer, at, 0xD3, end);
    }
    let end = write_fields(buffer, at + 3, index, slot);
    start_setting(buffer, at, 0xD3, end)
}

// The sixteen settings of the line slots.
pub fn export_line_slots(buffer: &mut [u8], region: &[u8]) -> Settings
    ensures { WritesLineSlots region.now buffer.old buffer.new result }
{
    if region.len() != LINE_SLOTS_SIZE {
        return NOTHING;
    }
    if buffer.len() < FIRST + 784 {
        return NOTHING;
    }
    let mut end = FIRST;
    for (index, slot) in region.chunks_exact(LINE_SLOT).enumerate() {
        end = write_line_slot(buffer, end, index as u8, slot);
    }
    Settings {
        end,
        count: SLOT_PLACES as u8,
    }
}
