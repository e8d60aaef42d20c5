// A line's number as one number: its digits behind a 1.
ghost use Rattle.std.specs.Prelude.{◌≤◌, length};
ghost use Rattle.read_deeds.specs.ReadDeeds.{KeptCode, NumberCode, KeyCode};

use read_fields::numbers::NumberPlace;
use tables::line_heads::line_head;
use tables::places::{LINE_DIGITS, LINE_TEXT};
use writing::LineFlags;

// Of no flags, which a number does not have.
const NO_FLAGS: LineFlags = LineFlags {
    encryption: false,
    emergency: false,
    priority: 0,
    pabx: false,
};

// The number of at most 18 digits that are kept as one more than themselves.
// By index: an iterator over bytes gives an Option of a reference, which a module for pointers of 32 bits may not hold.
fn kept_code(kept: &[u8]) -> u64
    requires { length kept.now ≤ 18 }
    ensures { KeptCode kept.now result }
{
    let mut code: u64 = 1;
    for i in 0..kept.len() {
        let digit = kept[i];
        if digit == 0 {
            return code;
        }
        code = code * 10 + ((digit - 1) % 10) as u64;
    }
    code
}

// That of the number that stands at a place.
pub(crate) fn number_code(m: &[u8], place: NumberPlace) -> u64
    ensures { NumberCode m.now place result }
{
    let head = line_head(m, NO_FLAGS, place);
    kept_code(&head[LINE_DIGITS..LINE_TEXT])
}

// The key of a line by the number of its digits and its IDtype.
pub(crate) fn line_key(code: u64, pabx: bool) -> u64
    ensures { KeyCode code pabx result }
{
    if 0x7FFF_FFFF_FFFF_FFFF <= code {
        return 0;
    }
    if pabx { 2 * code + 1 } else { 2 * code }
}
