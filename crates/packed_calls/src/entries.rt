// What stands behind a row of tables 1 and 4 to 8, which rows.rt names; nothing behind any other.
ghost use Rattle.packing.specs.PackedValues.{Enters, WritesDigits};

use packing::digits::pack_digits;
use packing::entries::pack_entry;
use screen::rows::row_of;
use tables::limits::Limits;
use values::digits::digits_in;
use values::entries::entry_in;

// Number, and the address and flags of what stands there: 11, 17 refuse.
pub fn packed_entry(table: u32, index: u32, store: &[u8], limits: Limits) -> u64
    ensures { Enters limits table index store.now result }
{
    let row = row_of(table, index);
    let answer = entry_in(row, store, limits);
    pack_entry(answer)
}

// Number, and how many digits of a line or a line slot stand, one a byte, at the start of a buffer of 18 bytes or more. 15, 11, 17 refuse, and the buffer stays.
pub fn packed_digits(table: u32, index: u32, store: &[u8], digits: &mut [u8], limits: Limits) -> u64
    ensures { WritesDigits limits table index store.now digits.old digits.new result }
{
    let row = row_of(table, index);
    let answer = digits_in(row, store, digits, limits);
    pack_digits(answer)
}
