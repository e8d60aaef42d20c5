// Writes the line contacts as settings.
ghost use Rattle.std.specs.Prelude.{◌≡◌, ◌+◌, ◌≤◌, length};
ghost use Rattle.tables.specs.Allowed.{LineOk};
ghost use Rattle.tables.specs.Layout.{line_bytes, line_width};
ghost use Rattle.export_write.specs.LineSettings.{line_add};
ghost use Rattle.export_write.specs.LineWriters.{line_byte, WritesFields, WritesLines};
ghost use Rattle.export_write.specs.Writers.{Kept, WritesSetting};

use super::texts::{write_number, write_text};
use super::writers::{FIRST, NOTHING, Settings, start_setting, write_bytes};
use slots::slots::used;
use tables::places::{LINE_DIGITS, LINE_IDTYPE, LINE_SLOT, LINE_TEXT};

// The bytes of 254 lines, for which a request has settings.
const MOST: usize = 254 * LINE_SLOT;

// The first byte of an add: the flags are sent two bits higher than they are kept, and the IDtype one.
fn line_byte(slot: &[u8]) -> u8
    requires { length slot.now ≡ line_width }
    ensures { result ≡ line_byte slot.now }
{
    64 + slot[0] % 16 * 4 + slot[LINE_IDTYPE] % 2 * 2
}

// What stands behind DataLength in an add of the line in a slot, whose second byte is the Count or an index.
pub(crate) fn write_fields(buffer: &mut [u8], at: usize, second: u8, slot: &[u8]) -> usize
    requires { (length slot.now ≡ line_width) × (at + 46 ≤ length buffer.old) }
    ensures { WritesFields second slot.now at buffer.old buffer.new result }
{
    let head = [line_byte(slot), second];
    let number = write_bytes(buffer, at, &head);
    let text = write_number(buffer, number, &slot[LINE_DIGITS..LINE_TEXT]);
    write_text(buffer, text, &slot[LINE_TEXT..LINE_SLOT])
}

// An add of the contact in a slot.
fn write_line(buffer: &mut [u8], at: usize, slot: &[u8]) -> usize
    requires { (length slot.now ≡ line_width) × (at + 49 ≤ length buffer.old) }
    ensures { WritesSetting (Kept LineOk line_bytes slot.now) line_add at 49 buffer.old buffer.new result }
{
    let end = write_fields(buffer, at + 3, 1, slot);
    start_setting(buffer, at, 0xCA, end)
}

// A replace with flags and Count 0, then an add for each contact of a region of the store.
pub fn export_lines(buffer: &mut [u8], region: &[u8]) -> Settings
    ensures { WritesLines region.now buffer.old buffer.new result }
{
    if MOST < region.len() {
        return NOTHING;
    }
    if buffer.len() < FIRST + 5 + region.len() / LINE_SLOT * 49 {
        return NOTHING;
    }
    let replace = [0xCA, 0, 4, 0xC0, 0];
    let mut end = write_bytes(buffer, FIRST, &replace);
    let lines = used(region, LINE_SLOT);
    for slot in region[0..lines].chunks_exact(LINE_SLOT) {
        end = write_line(buffer, end, slot);
    }
    Settings {
        end,
        count: 1 + (lines / LINE_SLOT) as u8,
    }
}
