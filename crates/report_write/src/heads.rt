// What the writers share: a head before a kept text, and a head before 24 bits.
ghost use Rattle.std.specs.Prelude.{◌≡◌, ◌∷◌, ◌+◌, ◌*◌, ◌≤◌, ◌<◌, length};
ghost use Rattle.slots.specs.Slots.{u24};
ghost use Rattle.export_write.specs.Writers.{Wrote};
ghost use Rattle.report_write.specs.ItemWriters.{WritesHeaded, item_most};

use export_write::fields::{put_bytes, put_text};

// The number of two bytes, high byte first.
pub(crate) fn pair(high: u8, low: u8) -> u32
    ensures { (result ≡ high * 256 + low) × (result < 65536) }
{
    high as u32 * 256 + low as u32
}

pub(crate) fn put_headed(buffer: &mut [u8], head: &[u8], text: &[u8]) -> usize
    requires { length head.now + length text.now + 2 ≤ length buffer.old }
    ensures { WritesHeaded head.now text.now buffer.old buffer.new result }
{
    let at = put_bytes(buffer, 0, head);
    put_text(buffer, at, text)
}

// A type byte, a good result, and 24 bits.
pub(crate) fn put_bits(buffer: &mut [u8], kind: u8, bits: u32) -> usize
    requires { (item_most ≤ length buffer.old) × (bits < 16777216) }
    ensures { Wrote (kind ∷ 0 ∷ u24 bits) 0 buffer.old buffer.new result }
{
    let low = bits % 65536;
    let bytes = [
        kind,
        0,
        (bits / 65536) as u8,
        (low / 256) as u8,
        (low % 256) as u8,
    ];
    put_bytes(buffer, 0, &bytes)
}
