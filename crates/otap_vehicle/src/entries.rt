// What stands behind a row of tables 1 and 4 to 8, which rows.rt names; nothing behind any other.
ghost use Rattle.tables.specs.Limits.{vehicle};
ghost use Rattle.packing.specs.PackedValues.{Enters, WritesDigits};

use packed_calls::entries::{packed_digits, packed_entry};
use tables::limits::VEHICLE;

// Number, and the address and flags of what stands there: 11, 17 refuse.
#[unsafe(no_mangle)]
pub extern "C" fn otap_vehicle_entry(table: u32, index: u32, store: &[u8]) -> u64
    ensures { Enters vehicle table index store.now result }
{
    packed_entry(table, index, store, VEHICLE)
}

// Number, and how many digits of a line or a line slot stand, one a byte, at the start of a buffer of 18 bytes or more. 15, 11, 17 refuse, and the buffer stays.
#[unsafe(no_mangle)]
pub extern "C" fn otap_vehicle_entry_digits(
    table: u32,
    index: u32,
    store: &[u8],
    digits: &mut [u8],
) -> u64
    ensures { WritesDigits vehicle table index store.now digits.old digits.new result }
{
    packed_digits(table, index, store, digits, VEHICLE)
}
