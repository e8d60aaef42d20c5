// Writes the emergency key, home numbers and system code as settings.
ghost use Rattle.std.specs.Prelude.{◌≡◌, ◌+◌, ◌≤◌, ◌<◌, length};
ghost use Rattle.store_check.specs.Checks.{KeyOk};
ghost use Rattle.tables.specs.Layout.{key_bytes};
ghost use Rattle.export_write.specs.FixedWriters.{key_setting, home_bits, system_bits, WritesThree, WritesFixed};
ghost use Rattle.export_write.specs.Writers.{Kept, WritesSetting};

use super::writers::{FIRST, NOTHING, Settings, pair, start_setting, three, write_bytes};

// Where the address that is sent ends among a kept key's bytes, whose flags have 16 for the current place: no address is sent for that.
fn address_end(flags: u8) -> usize
    ensures { (1 ≤ result) × (result ≤ 4) × (flags < 16 → result ≡ 4) × (16 ≤ flags → result ≡ 1) }
{
    if flags < 16 { 4 } else { 1 }
}

fn write_key(buffer: &mut [u8], at: usize, region: &[u8]) -> usize
    requires { (length region.now ≡ 4) × (at + 7 ≤ length buffer.old) }
    ensures { WritesSetting (Kept KeyOk key_bytes region.now) key_setting at 7 buffer.old buffer.new result }
{
    let flags = [region[0] % 32 * 8];
    let address = write_bytes(buffer, at + 3, &flags);
    let last = address_end(region[0]);
    let end = write_bytes(buffer, address, &region[1..last]);
    start_setting(buffer, at, 0xCB, end)
}

// Home numbers as 24 bits: 9 of NZI, 10 of NP, and 5 that are 0.
fn home_bits(region: &[u8]) -> u32
    requires { length region.now ≡ 4 }
    ensures { result ≡ home_bits region.now }
{
    pair(region[0], region[1]) % 512 * 32768 + pair(region[2], region[3]) % 1024 * 32
}

// The system code as 24 bits: 12 of LAI, 7 of LA, roaming and PAR as they are kept, and 5 that are 0.
fn system_bits(region: &[u8]) -> u32
    requires { length region.now ≡ 3 }
    ensures { result ≡ system_bits region.now }
{
    pair(region[0], region[1]) % 4096 * 4096 + (region[2] % 128) as u32 * 32
}

// A setting whose fields after DataLength have 24 bits.
fn write_three(buffer: &mut [u8], at: usize, kind: u8, bits: u32) -> usize
    requires { at + 6 ≤ length buffer.old }
    ensures { WritesThree kind bits at buffer.old buffer.new result }
{
    let bytes = three(bits);
    let end = write_bytes(buffer, at + 3, &bytes);
    start_setting(buffer, at, kind, end)
}

// The three, which stand one after the other in the store.
pub fn export_fixed(buffer: &mut [u8], region: &[u8]) -> Settings
    ensures { WritesFixed region.now buffer.old buffer.new result }
{
    if region.len() != 11 {
        return NOTHING;
    }
    if buffer.len() < FIRST + 19 {
        return NOTHING;
    }
    let home = write_key(buffer, FIRST, &region[0..4]);
    let numbers = home_bits(&region[4..8]);
    let system = write_three(buffer, home, 0xCD, numbers);
    let code = system_bits(&region[8..11]);
    let end = write_three(buffer, system, 0xCF, code);
    Settings { end, count: 3 }
}
