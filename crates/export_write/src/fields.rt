// Bytes, texts and numbers for other writers, which have not proved that there is room: nothing is written where there is none.
ghost use Rattle.std.specs.Prelude.{◌≡◌, ◌+◌, ◌≤◌, length};
ghost use Rattle.export_write.specs.Writers.{Wrote, WritesText, WritesNumber};

use super::texts::{write_number, write_text};
use super::writers::write_bytes;
use tables::places::{LINE_DIGITS, LINE_TEXT};

// The most bytes of a written number, and the digits that one is kept in.
const NUMBER: usize = 10;

const DIGITS: usize = LINE_TEXT - LINE_DIGITS;

pub fn put_bytes(buffer: &mut [u8], at: usize, bytes: &[u8]) -> usize
    ensures { at + length bytes.now ≤ length buffer.old → Wrote bytes.now at buffer.old buffer.new result }
{
    if buffer.len() < at {
        return at;
    }
    if buffer.len() - at < bytes.len() {
        return at;
    }
    write_bytes(buffer, at, bytes)
}

// A kept text's units, and the end unit after them.
pub fn put_text(buffer: &mut [u8], at: usize, slot: &[u8]) -> usize
    ensures { at + length slot.now + 2 ≤ length buffer.old → WritesText slot.now at buffer.old buffer.new result }
{
    if buffer.len() < at {
        return at;
    }
    if buffer.len() - at < 2 {
        return at;
    }
    if buffer.len() - at - 2 < slot.len() {
        return at;
    }
    write_text(buffer, at, slot)
}

// A kept number's digits, and the end mark after them.
pub fn put_number(buffer: &mut [u8], at: usize, digits: &[u8]) -> usize
    ensures { (length digits.now ≡ 18) × (at + 10 ≤ length buffer.old) → WritesNumber digits.now at buffer.old buffer.new result }
{
    if digits.len() != DIGITS {
        return at;
    }
    if buffer.len() < at {
        return at;
    }
    if buffer.len() - at < NUMBER {
        return at;
    }
    write_number(buffer, at, digits)
}
