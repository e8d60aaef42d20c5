// What stands behind a row.
ghost use Rattle.std.specs.Prelude.{◌≡◌};
ghost use Rattle.std.proofs.Math.Option.{some};
ghost use Rattle.values.specs.Values.{told};
ghost use Rattle.packing.specs.PackedValues.{entry_values, entry_bits, entry_fields, WhereFit};

use super::bits::bit_of;
use values::answers::{NoValue, Target};

// All that an entry of any kind has, 0 where its kind has none.
#[derive(Clone, Copy)]
pub struct EntryValues {
    pub address: u32,
    pub idtype: bool,
    pub encryption: bool,
    pub emergency: bool,
    pub priority: u8,
    pub attribute: u8,
    pub broadcast: bool,
    pub ovcm: bool,
}

impl From<Target> for EntryValues {
    ghost from_gives = { λ target r. r ≡ entry_values (some target) };

    fn from(target: Target) -> EntryValues {
        match target {
            Target::Line(f) => EntryValues {
                address: 0,
                idtype: f.pabx,
                encryption: f.encryption,
                emergency: f.emergency,
                priority: f.priority,
                attribute: 0,
                broadcast: false,
                ovcm: false,
            },
            Target::Group(f, a) => EntryValues {
                address: a.0,
                idtype: false,
                encryption: f.encryption,
                emergency: f.emergency,
                priority: f.priority,
                attribute: f.attribute,
                broadcast: f.broadcast,
                ovcm: f.ovcm,
            },
            Target::Individual(f, a) => EntryValues {
                address: a.0,
                idtype: false,
                encryption: f.encryption,
                emergency: f.emergency,
                priority: f.priority,
                attribute: 0,
                broadcast: false,
                ovcm: false,
            },
        }
    }
}

// Bits 8 to 31 address, 32 IDtype, 33 encryption, 34 emergency, 35 to 36 priority, 37 to 38 attribute, 39 broadcast, 40 OVCM.
fn pack_values(v: EntryValues) -> u64
    ensures { WhereFit (entry_bits v 0) result }
{
    (v.address % 16777216) as u64 * 256
        + bit_of(v.idtype) * 4294967296
        + bit_of(v.encryption) * 8589934592
        + bit_of(v.emergency) * 17179869184
        + (v.priority % 4) as u64 * 34359738368
        + (v.attribute % 4) as u64 * 137438953472
        + bit_of(v.broadcast) * 549755813888
        + bit_of(v.ovcm) * 1099511627776
}

// Bits 0 to 7 number, and above them what stands there.
pub fn pack_entry(answer: Result<Target, NoValue>) -> u64
    ensures { WhereFit (entry_fields (told answer)) result }
{
    match answer {
        Ok(target) => pack_values(EntryValues::from(target)),
        Err(why) => why as u64,
    }
}
