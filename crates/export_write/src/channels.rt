// Writes the scan channels as one setting.
ghost use Rattle.std.specs.Prelude.{◌≡◌, ◌+◌, ◌*◌, ◌/◌, ◌≤◌, ◌<◌, length};
ghost use Rattle.export_write.specs.ChannelWriters.{two_bits, last_bits, WritesPacked, WritesChannels};

use super::writers::{FIRST, NOTHING, Settings, pair, start_setting, three, write_bytes};
use slots::slots::used;

// Channels 2 i and 2 i + 1 of the region, as 24 bits.
fn two_channels(region: &[u8], i: usize) -> u32
    requires { 4 * i + 3 < length region.now }
    ensures { result ≡ two_bits region.now i }
{
    let a = 4 * i;
    pair(region[a], region[a + 1]) % 4096 * 4096 + pair(region[a + 2], region[a + 3]) % 4096
}

// Channel 2 i of the region, and 1111 behind it.
fn last_channel(region: &[u8], i: usize) -> u32
    requires { 4 * i + 1 < length region.now }
    ensures { (result ≡ last_bits region.now i) × (result < 65536) }
{
    let a = 4 * i;
    pair(region[a], region[a + 1]) % 4096 * 16 + 15
}

// The first channels of the region, two in three bytes; 1111 fills the last byte where they are odd in number.
fn write_packed(buffer: &mut [u8], at: usize, region: &[u8], count: usize) -> usize
    requires { (2 * count ≤ length region.now) × (at + (3 * count + 1) / 2 ≤ length buffer.old) }
    ensures { WritesPacked region.now count at buffer.old buffer.new result }
{
    let pairs = count / 2;
    let mut to = at;
    for i in 0..pairs {
        let bytes = three(two_channels(region, i));
        to = write_bytes(buffer, to, &bytes);
    }
    if count % 2 == 0 {
        return to;
    }
    let last = last_channel(region, pairs);
    let bytes = [(last / 256) as u8, (last % 256) as u8];
    write_bytes(buffer, to, &bytes)
}

// A replace by the channels of a region of the store.
pub fn export_channels(buffer: &mut [u8], region: &[u8]) -> Settings
    ensures { WritesChannels region.now buffer.old buffer.new result }
{
    if 2046 < region.len() {
        return NOTHING;
    }
    if buffer.len() < FIRST + 5 + (region.len() / 2 * 3 + 1) / 2 {
        return NOTHING;
    }
    let count = used(region, 2) / 2;
    let head = [0xC0 + (count / 256) as u8, (count % 256) as u8];
    let entries = write_bytes(buffer, FIRST + 3, &head);
    let packed = write_packed(buffer, entries, region, count);
    let end = start_setting(buffer, FIRST, 0xCE, packed);
    Settings { end, count: 1 }
}
