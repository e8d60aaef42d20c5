// The emergency key, the home numbers and the system code.
ghost use Rattle.std.specs.Prelude.{◌≡◌};
ghost use Rattle.std.proofs.Math.Option.{some};
ghost use Rattle.values.specs.Values.{held};
ghost use Rattle.packing.specs.PackedValues.{home_bits, home_fields, key_bits, key_fields, key_values, system_bits, system_fields, WhereFit};

use super::bits::bit_of;
use values::answers::EmergencyKey;
use writing::{HomeNumbers, KeyTarget, SystemCode};

// All that the key has, whatever it calls; no address with the current place.
#[derive(Clone, Copy)]
pub struct KeyValues {
    pub address: u32,
    pub current: bool,
    pub group: bool,
    pub voice: bool,
    pub status: bool,
    pub siren: bool,
}

impl From<EmergencyKey> for KeyValues {
    ghost from_gives = { λ key r. r ≡ key_values (some key) };

    fn from(key: EmergencyKey) -> KeyValues {
        let (address, current, group) = match key.target {
            KeyTarget::Current(group) => (0, true, group),
            KeyTarget::ToGroup(a) => (a.0, false, true),
            KeyTarget::ToIndividual(a) => (a.0, false, false),
        };
        KeyValues {
            address,
            current,
            group,
            voice: key.flags.voice,
            status: key.flags.status,
            siren: key.flags.siren,
        }
    }
}

// Bits 8 to 31 address, 32 current, 33 group, 34 voice, 35 status, 36 siren.
fn pack_calls(v: KeyValues) -> u64
    ensures { WhereFit (key_bits v 0) result }
{
    (v.address % 16777216) as u64 * 256
        + bit_of(v.current) * 4294967296
        + bit_of(v.group) * 8589934592
        + bit_of(v.voice) * 17179869184
        + bit_of(v.status) * 34359738368
        + bit_of(v.siren) * 68719476736
}

// Bits 0 to 7 number, and above them where the key calls, and how.
pub fn pack_key(answer: Option<EmergencyKey>) -> u64
    ensures { WhereFit (key_fields (held answer)) result }
{
    match answer {
        Some(key) => pack_calls(KeyValues::from(key)),
        None => 11,
    }
}

// Bits 8 to 16 NZI, 17 to 26 NP.
fn pack_numbers(h: HomeNumbers) -> u64
    ensures { WhereFit (home_bits h 0) result }
{
    (h.nzi % 512) as u64 * 256 + (h.np % 1024) as u64 * 131072
}

// Bits 0 to 7 number, and above them the home numbers.
pub fn pack_home(answer: Option<HomeNumbers>) -> u64
    ensures { WhereFit (home_fields (held answer)) result }
{
    match answer {
        Some(h) => pack_numbers(h),
        None => 11,
    }
}

// Bits 8 to 19 LAI, 20 to 23 LA, 24 to 25 roaming, 26 PAR.
fn pack_code(c: SystemCode) -> u64
    ensures { WhereFit (system_bits c 0) result }
{
    (c.lai % 4096) as u64 * 256
        + (c.la % 16) as u64 * 1048576
        + (c.roaming % 4) as u64 * 16777216
        + bit_of(c.par) * 67108864
}

// Bits 0 to 7 number, and above them the system code.
pub fn pack_system(answer: Option<SystemCode>) -> u64
    ensures { WhereFit (system_fields (held answer)) result }
{
    match answer {
        Some(c) => pack_code(c),
        None => 11,
    }
}
