// What a setting does to the table of line contacts, which is a region of a store.
ghost use Rattle.std.specs.Prelude.{◌≤◌, length};
ghost use Rattle.store_lists.specs.Lists.{LinePlaces, LinesApplied, LineStepped};

use super::line_slots::line_slot;
use orders::changes::{drop_ordered, put_ordered};
use read_fields::entries::read_contact;
use settings::settings::Entries;
use tables::places::{COUNT, KEY_BYTES, LINE_KEY, LINE_SLOT, LINE_TEXT};
use tables::replacing::empty_to_replace;
use writing::{LineFlags, Operation};

// How many places a region of lines has: each has its slot, and its byte of the order.
fn line_places(size: usize) -> usize
    ensures { LinePlaces size result }
{
    if size < COUNT {
        return 0;
    }
    (size - COUNT) / (LINE_SLOT + 1)
}

// Applies an operation to the line of a slot: was there room?
fn step_line(list: &mut [u8], operation: Operation, slot: &[u8]) -> bool
    requires { 20 ≤ length slot.now }
    ensures { LineStepped operation slot.now list.old list.new result }
{
    let n = line_places(list.len());
    match operation {
        Operation::Add => put_ordered(list, LINE_SLOT, LINE_KEY, KEY_BYTES, n, slot),
        Operation::Delete => {
            drop_ordered(list, LINE_SLOT, LINE_KEY, n, &slot[LINE_KEY..LINE_TEXT]);
            true
        }
        Operation::Replace => put_ordered(list, LINE_SLOT, LINE_KEY, KEY_BYTES, n, slot),
    }
}

// Applies the line contacts of a setting in order, until there is no room: was there?
pub fn apply_lines(
    list: &mut [u8],
    m: &[u8],
    operation: Operation,
    flags: LineFlags,
    entries: Entries,
) -> bool
    ensures { LinesApplied operation m.now flags entries list.old list.new result }
{
    empty_to_replace(list, operation);
    let coding = entries.coding;
    let mut p = entries.start;
    for _ in 0..entries.count {
        let Some((place, next)) = read_contact(m, p, coding) else {
            return false;
        };
        let slot = line_slot(m, flags, place);
        if !step_line(list, operation, &slot) {
            return false;
        }
        p = next;
    }
    true
}
