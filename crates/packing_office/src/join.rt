// What joining answers.
ghost use Rattle.std.specs.Prelude.{◌+◌, ◌*◌, ◌<◌, ◌≡◌};
ghost use Rattle.joining.specs.Told.{fault_number, fault_id, told};
ghost use Rattle.packing.specs.PackedValues.{WhereFit};
ghost use Rattle.packing_office.specs.PackedJoin.{join_fields};

use joining::answers::{Fault, Join};
use packing::bits::low;

// Bits 0 to 7 number, 8 to 15 failed ID.
fn pack_fault(fault: Fault) -> u64
    ensures { (result ≡ fault_id fault * 256 + fault_number fault) × (result < 65536) }
{
    match fault {
        Fault::Size => 12,
        Fault::Carrier => 13,
        Fault::OtherType => 14,
        Fault::Version => 1,
        Fault::NoRequest => 4,
        Fault::LeftOver => 4,
        Fault::Unknown(id) => id as u64 * 256 + 3,
        Fault::Field(id) => id as u64 * 256 + 4,
        Fault::LastItem(id) => id as u64 * 256 + 4,
    }
}

// And 16 to 31 length, 32 the second request is at fault.
pub fn pack_join(answer: Join) -> u64
    ensures { WhereFit (join_fields (told answer)) result }
{
    match answer {
        Join::Written(length) => low(length) * 65536,
        Join::Buffer => 15,
        Join::First(fault) => pack_fault(fault),
        Join::Second(fault) => 4294967296 + pack_fault(fault),
        Join::Codings => 4,
        Join::TooMany => 4,
        Join::TooLong => 12,
    }
}
