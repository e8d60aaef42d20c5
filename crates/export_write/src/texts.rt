// Writes texts and numbers as they stand in a setting.
ghost use Rattle.std.specs.Prelude.{◌≡◌, ◌+◌, ◌≤◌, length};
ghost use Rattle.export_write.specs.Writers.{DigitAt, WritesText, WritesNumber};

use super::writers::write_bytes;
use slots::slots::used;

// A kept text's units, and the end unit after them.
pub(crate) fn write_text(buffer: &mut [u8], at: usize, slot: &[u8]) -> usize
    requires { at + length slot.now + 2 ≤ length buffer.old }
    ensures { WritesText slot.now at buffer.old buffer.new result }
{
    let n = used(slot, 2);
    let end = write_bytes(buffer, at, &slot[0..n]);
    let end_unit = [0u8, 0u8];
    write_bytes(buffer, end, &end_unit)
}

// Digit i of a kept number, which keeps each as one more than itself; 15 past the last.
fn digit(digits: &[u8], i: usize) -> u8
    requires { length digits.now ≡ 18 }
    ensures { DigitAt digits.now i result }
{
    if digits.len() <= i {
        return 15;
    }
    if digits[i] == 0 {
        return 15;
    }
    (digits[i] - 1) % 16
}

// A kept number's digits, two to a byte, and the end mark after them.
pub(crate) fn write_number(buffer: &mut [u8], at: usize, digits: &[u8]) -> usize
    requires { (length digits.now ≡ 18) × (at + 10 ≤ length buffer.old) }
    ensures { WritesNumber digits.now at buffer.old buffer.new result }
{
    let pairs = used(digits, 1) / 2;
    for i in 0..pairs {
        buffer[at + i] = digit(digits, 2 * i) * 16 + digit(digits, 2 * i + 1);
    }
    buffer[at + pairs] = digit(digits, 2 * pairs) * 16 + 15;
    at + pairs + 1
}
