// Writes bytes into a lent buffer. A writer takes the place to write at and gives the place after what it wrote. Those that other crates use write
// from FIRST on, and nothing where the region of the store or the room is not as long as it should be.
ghost use Rattle.std.specs.Prelude.{◌≡◌, ◌+◌, ◌*◌, ◌-◌, ◌≤◌, ◌<◌, length};
ghost use Rattle.slots.specs.Slots.{u24};
ghost use Rattle.export_write.specs.Writers.{Wrote, Started};

use slots::bytes::copy;

// Settings that were written: the place after them, and how many they are.
#[derive(Clone, Copy)]
pub struct Settings {
    pub end: usize,
    pub count: u8,
}

// Where a request's settings start, behind its head.
pub const FIRST: usize = 8;

// What is written where nothing can be.
pub(crate) const NOTHING: Settings = Settings {
    end: FIRST,
    count: 0,
};

// The number of two bytes, high byte first.
pub(crate) fn pair(high: u8, low: u8) -> u32
    ensures { (result ≡ high * 256 + low) × (result < 65536) }
{
    high as u32 * 256 + low as u32
}

// 24 bits as three bytes, the highest first.
pub(crate) fn three(bits: u32) -> [u8; 3]
    ensures { (length result ≡ 3) × (bits < 16777216 → result ≡ u24 bits) }
{
    [
        (bits / 65536 % 256) as u8,
        (bits / 256 % 256) as u8,
        (bits % 256) as u8,
    ]
}

pub(crate) fn write_bytes(buffer: &mut [u8], at: usize, bytes: &[u8]) -> usize
    requires { at + length bytes.now ≤ length buffer.old }
    ensures { Wrote bytes.now at buffer.old buffer.new result }
{
    let end = at + bytes.len();
    copy(&mut buffer[at..end], bytes);
    end
}

// The type byte and DataLength of a setting whose other fields were written up to end.
pub(crate) fn start_setting(buffer: &mut [u8], at: usize, kind: u8, end: usize) -> usize
    requires { (at + 3 ≤ end) × (end ≤ length buffer.old) × (end - at ≤ 65536) }
    ensures { Started kind at end buffer.old buffer.new result }
{
    let length = end - at - 1;
    let start = [kind, (length / 256) as u8, (length % 256) as u8];
    write_bytes(buffer, at, &start);
    end
}
