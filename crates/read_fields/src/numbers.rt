// Line numbers at a place of a message: digits of half a byte.
ghost use Rattle.read_fields.specs.TextsAndNumbers.{NumberAt, DigitsAre, EndedAt};

use super::bytes::{number, remaining};

// The digits before the end mark.
#[derive(Clone, Copy)]
pub struct NumberPlace {
    pub start: usize,
    pub digits: usize,
}

// What a byte of a number holds: two digits, a last digit and the end mark, the end mark twice, or none of these.
#[derive(Clone, Copy)]
enum Digits {
    Two,
    One,
    Zero,
    Bad,
}

fn digits_in(b: u64) -> Digits
    ensures { DigitsAre b result }
{
    if b == 255 {
        return Digits::Zero;
    }
    if 9 < b / 16 {
        return Digits::Bad;
    }
    match b % 16 {
        0..=9 => Digits::Two,
        15 => Digits::One,
        _ => Digits::Bad,
    }
}

// The number of 1 to 18 digits at a place, and the place after it.
pub fn read_number(m: &[u8], at: usize) -> Option<(NumberPlace, usize)>
    ensures { NumberAt m.now at result }
{
    for pairs in 0..10 {
        let p = at + pairs;
        if remaining(m, p) < 1 {
            return None;
        }
        match digits_in(number(m, p, 1)) {
            Digits::Two => {}
            Digits::One => return ended(at, 2 * pairs + 1, p + 1),
            Digits::Zero => return ended(at, 2 * pairs, p + 1),
            Digits::Bad => return None,
        }
    }
    None
}

// A number that has ended, where its digits are 1 to 18.
fn ended(start: usize, digits: usize, next: usize) -> Option<(NumberPlace, usize)>
    ensures { EndedAt start digits next result }
{
    match digits {
        1..=18 => Some((NumberPlace { start, digits }, next)),
        _ => None,
    }
}
