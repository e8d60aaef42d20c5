// The head of a line's slot, all bytes before its text: its flags, its IDtype and its digits, each one more than itself.
ghost use Rattle.std.specs.Prelude.{◌≡◌, ◌+◌, ◌<◌, get_or};
ghost use Rattle.tables.specs.Layout.{line_flags};
ghost use Rattle.tables.specs.LineHeads.{DigitIs, DigitKept, DigitsPut, LineHead};

use super::heads::bit_of;
use super::places::{LINE_DIGITS, LINE_IDTYPE, LINE_TEXT};
use read_fields::numbers::NumberPlace;
use writing::LineFlags;

// The flags of a line in one byte, IDtype aside.
fn line_flag_byte(flags: LineFlags) -> u8
    ensures { flags.priority < 4 → result ≡ line_flags flags }
{
    bit_of(flags.encryption) * 8 + bit_of(flags.emergency) * 4 + flags.priority % 4
}

// The byte k places after start, or 0 past the end.
fn byte_at(m: &[u8], start: usize, k: usize) -> u8
    ensures { result ≡ get_or m.now (start + k) 0 }
{
    if m.len() < start {
        return 0;
    }
    if m.len() - start <= k {
        return 0;
    }
    m[start + k]
}

// Digit i of a number: half a byte, the high half first.
fn digit_at(m: &[u8], place: NumberPlace, i: usize) -> u8
    ensures { DigitIs m.now place i result }
{
    let both = byte_at(m, place.start, i / 2);
    if i % 2 == 0 {
        return both / 16;
    }
    both % 16
}

// Digit i as it is kept, so that no digit is 0; past the last it is 0.
fn kept_digit(m: &[u8], place: NumberPlace, i: usize) -> u8
    ensures { DigitKept m.now place i result }
{
    if i < place.digits {
        return digit_at(m, place, i) + 1;
    }
    0
}

// Fills dst with a number's digits, and zeros after them.
fn put_digits(dst: &mut [u8], m: &[u8], place: NumberPlace)
    ensures { DigitsPut m.now place dst.old dst.new }
{
    for i in 0..dst.len() {
        dst[i] = kept_digit(m, place, i);
    }
}

// The head of the line with these flags whose number stands at a place of the message.
pub fn line_head(m: &[u8], flags: LineFlags, place: NumberPlace) -> [u8; LINE_TEXT]
    ensures { LineHead m.now flags place result }
{
    let mut head = [0u8; LINE_TEXT];
    head[0] = line_flag_byte(flags);
    head[LINE_IDTYPE] = bit_of(flags.pabx);
    put_digits(&mut head[LINE_DIGITS..LINE_TEXT], m, place);
    head
}
