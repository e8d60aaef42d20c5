// The digits behind a row: those of a line contact or a line slot.
ghost use Rattle.std.specs.Prelude.{◌≤◌, length};
ghost use Rattle.lists.specs.Ladder.{Answers};
ghost use Rattle.values.specs.Digits.{digits_told, writing_digits};
ghost use Rattle.values.specs.Entries.{DigitsAre, DigitsWritten, own_of};

use super::answers::NoValue;
use super::entries::filled_slot;
use screen::rows::Row;
use store_check::checks::is_store;
use tables::limits::Limits;
use tables::places::{LINE_DIGITS, LINE_TEXT};

// The most digits that a line can have: its slot has a byte for each.
const MOST: usize = LINE_TEXT - LINE_DIGITS;

// Writes the digits that a slot keeps, each as one more than itself and zeros behind the last; answers how many they are.
fn write_kept(kept: &[u8], buffer: &mut [u8]) -> usize
    requires { (18 ≤ length kept.now) × (18 ≤ length buffer.old) }
    ensures { DigitsWritten kept.now buffer.old buffer.new result }
{
    for i in 0..MOST {
        let digit = kept[i];
        if digit == 0 {
            return i;
        }
        buffer[i] = digit - 1;
    }
    MOST
}

// Writes the digits that the bytes before the text keep in a row's slot, where the row is a line's.
fn digits_of(row: Row, slot: &[u8], buffer: &mut [u8]) -> Result<usize, NoValue>
    requires { (own_of row ≤ length slot.now) × (18 ≤ length buffer.old) }
    ensures { DigitsAre row slot.now buffer.old buffer.new result }
{
    match row {
        Row::Line(_) | Row::LineSlot(_) => { Ok(write_kept(&slot[LINE_DIGITS..LINE_TEXT], buffer)) }
        _ => Err(NoValue::Absent),
    }
}

// The digits behind a row, at the buffer's start, in a store of a set with these limits.
pub fn digits_in(
    row: Row,
    store: &[u8],
    buffer: &mut [u8],
    limits: Limits,
) -> Result<usize, NoValue>
    ensures { Answers (writing_digits limits row store.now buffer.old) (digits_told result buffer.new) }
{
    if buffer.len() < MOST {
        return Err(NoValue::BufferSize);
    }
    if !is_store(store, limits) {
        return Err(NoValue::NotAStore);
    }
    let Some(slot) = filled_slot(row, store, limits) else {
        return Err(NoValue::Absent);
    };
    digits_of(row, &store[slot.start..slot.text], buffer)
}
