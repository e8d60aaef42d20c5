// The line contact that has an IDtype and digits, by the order that stands behind the lines.
ghost use Rattle.std.specs.Prelude.{◌≡◌, true, ◌↔◌, ◌∷◌, length};
ghost use Rattle.lists.specs.Ladder.{Answers};
ghost use Rattle.writing.specs.Ranges.{InNumber};
ghost use Rattle.tables.specs.Forms.{Roomy};
ghost use Rattle.tables.specs.Layout.{digit_bytes};
ghost use Rattle.callers.specs.Callers.{LineFound, looking_up, told};

use orders::search::find_entry;
use store_check::checks::is_store;
use store_check::checks_entries::at_most;
use tables::limits::Limits;
use tables::list_places::{line_slot, line_slots, lines_at};
use tables::places::{COUNT, KEY_BYTES, LINE_KEY};

// Why no row is looked up: C's numbers.
#[derive(Clone, Copy, PartialEq, Eq)]
pub enum NoCaller {
    NotAStore = 11,
    NotANumber = 20,
}

// Whether the digits are a number: 1 to 18 of them.
fn is_number(digits: &[u8]) -> bool
    ensures { (result ≡ true) ↔ InNumber digits.now }
{
    matches!(digits.len(), 1..=18) && at_most(digits, 9)
}

// The key of a line with these: its IDtype, then each digit one more than itself, and zeros behind the last.
// By index: an iterator over bytes gives an Option of a reference, which a module for pointers of 32 bits may not hold.
fn key_of(idtype: u8, digits: &[u8]) -> [u8; KEY_BYTES]
    requires { InNumber digits.now }
    ensures { result ≡ idtype ∷ digit_bytes digits.now }
{
    let mut key = [0u8; KEY_BYTES];
    key[0] = idtype;
    for i in 0..digits.len() {
        key[i + 1] = digits[i] + 1;
    }
    key
}

// The line that has a key.
fn find_line(store: &[u8], limits: Limits, key: &[u8]) -> Option<usize>
    requires { Roomy limits × (length store.now ≡ limits.size) }
    ensures { LineFound limits store.now key.now result }
{
    let lines = lines_at(limits);
    let spare = lines + (COUNT + line_slots(limits) + limits.lines);
    find_entry(
        &store[lines..spare],
        line_slot(limits),
        LINE_KEY,
        limits.lines,
        key,
    )
}

// The row of the line that has an IDtype and digits, or that none has them, in a store of a set with these limits.
pub fn line_of_in(
    idtype: u32,
    digits: &[u8],
    store: &[u8],
    limits: Limits,
) -> Result<Option<usize>, NoCaller>
    ensures { Answers (looking_up limits idtype digits.now store.now) (told result) }
{
    if !is_store(store, limits) {
        return Err(NoCaller::NotAStore);
    }
    if !is_number(digits) {
        return Err(NoCaller::NotANumber);
    }
    if 1 < idtype {
        return Ok(None);
    }
    let key = key_of(idtype as u8, digits);
    Ok(find_line(store, limits, &key))
}
