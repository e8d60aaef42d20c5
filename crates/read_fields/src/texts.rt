// Texts at a place of a message. Of the readers, only this file knows how units are coded.
ghost use Rattle.read_fields.specs.TextsAndNumbers.{UnitBytes, TextAt};

use super::bytes::{joined, remaining};
use writing::Coding;

// The units before the end unit, and the coding that they were read under.
#[derive(Clone, Copy)]
pub struct TextPlace {
    pub start: usize,
    pub units: usize,
    pub coding: Coding,
}

// How many bytes a unit has.
pub fn unit_bytes(coding: Coding) -> usize
    ensures { UnitBytes coding result }
{
    match coding {
        Coding::Unicode16 => 2,
        Coding::EightBit => 1,
    }
}

// The text of at most limit units of W bytes at a place, and the place after its end unit. A `for` over units was tried: it was slower.
// Not inlined: readers hand None on, and the parts of all that they answer would be set to 0 at each unit. The width is the type's, so that the compiler knows it.
#[inline(never)]
fn read_units<const W: usize>(
    m: &[u8],
    at: usize,
    limit: usize,
    coding: Coding,
) -> Option<(TextPlace, usize)>
    requires { UnitBytes coding W }
    ensures { TextAt coding m.now at limit result }
{
    let mut p = at;
    let mut units: usize = 0;
    while units <= limit {
        if remaining(m, p) < W {
            return None;
        }
        if joined(m, p, W) == 0 {
            let start = at;
            return Some((
                TextPlace {
                    start,
                    units,
                    coding,
                },
                p + W,
            ));
        }
        units += 1;
        p += W;
    }
    None
}

// The text of at most limit units at a place, and the place after its end unit.
pub fn read_text(m: &[u8], at: usize, limit: usize, coding: Coding) -> Option<(TextPlace, usize)>
    ensures { TextAt coding m.now at limit result }
{
    if unit_bytes(coding) == 1 {
        read_units::<1>(m, at, limit, coding)
    } else {
        read_units::<2>(m, at, limit, coding)
    }
}
