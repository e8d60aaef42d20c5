// A number as text: 16-bit units of ASCII codes, written at the start of the scratch.
ghost use Rattle.std.specs.Prelude.{◌+◌, ◌*◌, ◌≤◌, ◌<◌, ◌≡◌, ◌∷◌, ◌++◌, map, length, take, drop};
ghost use Rattle.slots.specs.Slots.{EntryOf};
ghost use Rattle.tables.specs.Layout.{digit_bytes};
ghost use Rattle.writing.specs.Ranges.{InNumber};
ghost use Rattle.screen.specs.Rows.{ascii, digits};
ghost use Rattle.screen.specs.Steps.{Written, DigitsWritten, dialled_digits};

use plan::numbers::DialledNumber;

// 0 to 9, then A to F.
fn code(digit: u8) -> u8
    requires { digit < 16 }
    ensures { result ≡ ascii digit }
{
    if digit < 10 { 48 + digit } else { 55 + digit }
}

// Writes a digit as unit i.
fn put_digit(scratch: &mut [u8], i: usize, digit: u8)
    requires { (2 * i + 2 ≤ length scratch.old) × (digit < 16) }
    ensures { scratch.new ≡ take (2 * i) scratch.old ++ (0 ∷ ascii digit ∷ drop (2 * i + 2) scratch.old) }
{
    let high = 2 * i;
    let low = high + 1;
    scratch[high] = 0;
    scratch[low] = code(digit);
}

// The n lowest digits of x in this base; answers how many bytes they take.
fn write_digits(scratch: &mut [u8], x: u64, base: u64, n: usize) -> usize
    requires { (2 * n ≤ length scratch.old) × (1 < base) × (base ≤ 16) }
    ensures { Written (map ascii (digits base n x)) scratch.old scratch.new result }
{
    let mut rest = x;
    for left in (0..n).rev() {
        put_digit(scratch, left, (rest % base) as u8);
        rest /= base;
    }
    2 * n
}

// A line's digits, which its slot keeps as one more than themselves.
// By index: an iterator over bytes gives an Option of a reference, which a module for pointers of 32 bits may not hold.
pub(crate) fn write_line(scratch: &mut [u8], kept: &[u8]) -> usize
    requires { (36 ≤ length scratch.old) × EntryOf InNumber digit_bytes kept.now }
    ensures { DigitsWritten kept.now scratch.old scratch.new result }
{
    for i in 0..kept.len() {
        let digit = kept[i];
        if digit == 0 {
            return 2 * i;
        }
        put_digit(scratch, i, digit - 1);
    }
    36
}

// Eight dialled digits, or six of the address where its plan has none.
pub(crate) fn write_address(
    scratch: &mut [u8],
    dialled: Option<DialledNumber>,
    address: u32,
) -> usize
    requires { 36 ≤ length scratch.old }
    ensures { Written (map ascii (dialled_digits dialled address)) scratch.old scratch.new result }
{
    match dialled {
        Some(d) => write_digits(scratch, d.0 as u64, 10, 8),
        None => write_digits(scratch, address as u64, 16, 6),
    }
}

// The same for any other crate: nothing is written where the scratch has no room for the longest number.
pub fn write_dialled(scratch: &mut [u8], dialled: Option<DialledNumber>, address: u32) -> usize
    ensures { 36 ≤ length scratch.old → Written (map ascii (dialled_digits dialled address)) scratch.old scratch.new result }
{
    if scratch.len() < 36 {
        return 0;
    }
    write_address(scratch, dialled, address)
}

// The n lowest decimal digits of a number; nothing where the scratch has no room for them.
pub fn write_decimal(scratch: &mut [u8], x: u64, n: usize) -> usize
    ensures { 2 * n ≤ length scratch.old → Written (map ascii (digits 10 n x)) scratch.old scratch.new result }
{
    if scratch.len() / 2 < n {
        return 0;
    }
    write_digits(scratch, x, 10, n)
}
