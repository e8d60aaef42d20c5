// The screen's rows. Tables: 1 lines, 2 quick texts, 3 status texts, 4 groups, 5 individuals, 6 group contacts, 7 individual contacts, 8 line slots.
ghost use Rattle.packing_desk.specs.PackedDesk.{PlainNumbers, PlainParts};

use packing::rows::pack_place;
use plain_rows::desk::{row_number, row_place};
use screen::answers::number_of;
use screen::rows::row_of;

// 0: the row is shown. 15, 11, 17: it is not.
#[unsafe(no_mangle)]
pub extern "C" fn otap_plain_row_number(table: u32, row: u32, area: &[u8], scratch: &[u8]) -> u32
    ensures { PlainNumbers table row area.now scratch.now result }
{
    let which = row_of(table, row);
    let answer = row_number(area, scratch, which);
    number_of(answer) as u32
}

// Bit 0: 1, the part is at the start of the scratch; 32 to 47 its length. 0 on a refusal.
#[unsafe(no_mangle)]
pub extern "C" fn otap_plain_row_part(table: u32, row: u32, area: &[u8], scratch: &mut [u8]) -> u64
    ensures { PlainParts table row area.now scratch.old scratch.new result }
{
    let which = row_of(table, row);
    let place = row_place(area, scratch, which);
    pack_place(place)
}
