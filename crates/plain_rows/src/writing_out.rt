// Writes a text or a number at the start of the scratch, as 16-bit units.
ghost use Rattle.plain_rows.specs.Naming.{DigitsIn, LineWritten, TextWritten};

use read_fields::texts::TextPlace;
use screen::numbers::write_decimal;
use slots::bytes::{copy, widen_padded};
use writing::Coding;

// How many digits stand behind the 1 of a line's number.
fn digits_in(code: u64) -> usize
    ensures { DigitsIn code result }
{
    let mut rest = code;
    for n in 0..18 {
        if rest < 10 {
            return n;
        }
        rest = rest / 10;
    }
    18
}

// A line's digits; answers how many bytes they take.
pub(crate) fn write_line(scratch: &mut [u8], code: u64) -> usize
    ensures { LineWritten code scratch.old scratch.new result }
{
    write_decimal(scratch, code, digits_in(code))
}

// A text that stands in the area, of units of either coding; answers how many bytes it takes.
pub(crate) fn write_text(scratch: &mut [u8], area: &[u8], place: TextPlace) -> usize
    ensures { TextWritten area.now place scratch.old scratch.new result }
{
    let start = place.start;
    let units = place.units;
    if 32 < units {
        return 0;
    }
    let bytes = 2 * units;
    if scratch.len() < bytes {
        return 0;
    }
    if area.len() < start {
        return 0;
    }
    let coding = place.coding;
    match coding {
        Coding::Unicode16 => {
            if area.len() - start < bytes {
                return 0;
            }
            let end = start + bytes;
            copy(&mut scratch[0..bytes], &area[start..end]);
        }
        Coding::EightBit => {
            if area.len() - start < units {
                return 0;
            }
            let end = start + units;
            widen_padded(&mut scratch[0..bytes], &area[start..end]);
        }
    }
    bytes
}
