// Writes the emergency key, home numbers, system code and kept hash, each the only entry of its table.
ghost use Rattle.reports.specs.declared.Asked.TheVariants.{Key, Home, System, Hash};
ghost use Rattle.report_write.specs.ItemWriters.{Ready, WritesEntry, ValueEnd};

use super::heads::{pair, put_bits};
use export_write::fields::put_bytes;

// The group bit stands before the current bit, unlike in a setting.
pub(crate) fn write_key(buffer: &mut [u8], slot: &[u8]) -> usize
    requires { Ready Key slot.now buffer.old }
    ensures { WritesEntry Key slot.now 0 0 buffer.old buffer.new result }
{
    let flags = slot[0] / 8 % 2 * 128 + slot[0] / 16 % 2 * 64 + slot[0] % 8 * 8;
    let bytes = [0x8B, 0, flags, slot[1], slot[2], slot[3]];
    put_bytes(buffer, 0, &bytes)
}

// 9 bits of NZI, 10 of NP, and 5 that are 0.
pub(crate) fn write_home(buffer: &mut [u8], slot: &[u8]) -> usize
    requires { Ready Home slot.now buffer.old }
    ensures { WritesEntry Home slot.now 0 0 buffer.old buffer.new result }
{
    let bits = pair(slot[0], slot[1]) % 512 * 32768 + pair(slot[2], slot[3]) % 1024 * 32;
    put_bits(buffer, 0x8D, bits)
}

// 12 bits of LAI, 7 of LA, roaming and PAR as they are kept, and 5 that are 0.
pub(crate) fn write_system(buffer: &mut [u8], slot: &[u8]) -> usize
    requires { Ready System slot.now buffer.old }
    ensures { WritesEntry System slot.now 0 0 buffer.old buffer.new result }
{
    let bits = pair(slot[0], slot[1]) % 4096 * 4096 + (slot[2] % 128) as u32 * 32;
    put_bits(buffer, 0x8F, bits)
}

// Where a kept hash of this code ends in its slot: it has 4 bytes, or 10.
fn value_end(code: u8) -> usize
    ensures { ValueEnd code result }
{
    if code == 1 { 5 } else { 11 }
}

pub(crate) fn write_hash(buffer: &mut [u8], slot: &[u8]) -> usize
    requires { Ready Hash slot.now buffer.old }
    ensures { WritesEntry Hash slot.now 0 0 buffer.old buffer.new result }
{
    if slot[0] == 0 {
        let none = [0xBF, 0];
        return put_bytes(buffer, 0, &none);
    }
    let one = [0xBF, 1];
    let code = put_bytes(buffer, 0, &one);
    let end = value_end(slot[0]);
    put_bytes(buffer, code, &slot[0..end])
}
