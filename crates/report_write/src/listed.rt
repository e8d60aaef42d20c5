// Writes the parameter of an entry of a table with many.
ghost use Rattle.reports.specs.declared.Asked.TheVariants.{Groups, Individuals, Lines, QuickTexts, Channels, StatusTexts};
ghost use Rattle.report_write.specs.ItemWriters.{Ready, WritesEntry};

use super::heads::{pair, put_bits, put_headed};
use export_write::fields::{put_bytes, put_number, put_text};
use tables::places::{
    LINE_DIGITS, LINE_IDTYPE, LINE_SLOT, LINE_TEXT, MEMBER_SLOT, MEMBER_TEXT, STATUS_SLOT,
    STATUS_TEXT,
};

pub(crate) fn write_group(buffer: &mut [u8], slot: &[u8], rank: usize) -> usize
    requires { Ready Groups slot.now buffer.old }
    ensures { WritesEntry Groups slot.now 0 rank buffer.old buffer.new result }
{
    let index = (rank % 16) as u8;
    let head = [
        0x88,
        0,
        slot[1],
        slot[2],
        slot[3],
        index * 16 + slot[0] / 16,
        slot[0] % 16 * 16,
    ];
    put_headed(buffer, &head, &slot[MEMBER_TEXT..MEMBER_SLOT])
}

pub(crate) fn write_individual(buffer: &mut [u8], slot: &[u8], rank: usize) -> usize
    requires { Ready Individuals slot.now buffer.old }
    ensures { WritesEntry Individuals slot.now 0 rank buffer.old buffer.new result }
{
    let index = (rank % 16) as u8;
    let head = [
        0x89,
        0,
        slot[1],
        slot[2],
        slot[3],
        index * 16 + slot[0] % 16,
    ];
    put_headed(buffer, &head, &slot[MEMBER_TEXT..MEMBER_SLOT])
}

// IDtype stands before the flags, unlike in a setting.
pub(crate) fn write_line(buffer: &mut [u8], slot: &[u8], rank: usize) -> usize
    requires { Ready Lines slot.now buffer.old }
    ensures { WritesEntry Lines slot.now 0 rank buffer.old buffer.new result }
{
    let index = (rank % 16) as u8;
    let head = [
        0x8A,
        0,
        slot[LINE_IDTYPE] % 2 * 128 + slot[0] % 16 * 8,
        index,
    ];
    let number = put_bytes(buffer, 0, &head);
    let text = put_number(buffer, number, &slot[LINE_DIGITS..LINE_TEXT]);
    put_text(buffer, text, &slot[LINE_TEXT..LINE_SLOT])
}

// The index stands before the reserved bits, unlike in a setting.
pub(crate) fn write_quick(buffer: &mut [u8], slot: &[u8], place: usize) -> usize
    requires { Ready QuickTexts slot.now buffer.old }
    ensures { WritesEntry QuickTexts slot.now place 0 buffer.old buffer.new result }
{
    let index = (place % 64) as u8;
    let head = [0x8C, 0, index * 4];
    put_headed(buffer, &head, slot)
}

pub(crate) fn write_channel(buffer: &mut [u8], slot: &[u8], rank: usize) -> usize
    requires { Ready Channels slot.now buffer.old }
    ensures { WritesEntry Channels slot.now 0 rank buffer.old buffer.new result }
{
    let index = (rank % 4096) as u32;
    put_bits(buffer, 0x8E, pair(slot[0], slot[1]) % 4096 * 4096 + index)
}

// A status text's code is 32 more than its place.
pub(crate) fn write_status(buffer: &mut [u8], slot: &[u8], place: usize, rank: usize) -> usize
    requires { Ready StatusTexts slot.now buffer.old }
    ensures { WritesEntry StatusTexts slot.now place rank buffer.old buffer.new result }
{
    let code = (place % 96) as u8 + 32;
    let index = (rank % 256) as u8;
    let head = [0x90, 0, code, index];
    put_headed(buffer, &head, &slot[STATUS_TEXT..STATUS_SLOT])
}
