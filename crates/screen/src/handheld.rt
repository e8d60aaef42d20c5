// The calls of the handheld's screen.
ghost use Rattle.lists.specs.Ladder.{Answers};
ghost use Rattle.tables.specs.Limits.{handheld};
ghost use Rattle.screen.specs.Screen.{number, numbering, showing, leaves, PartGiven, lent};

use super::answers::{Answer, Place};
use super::rows::Row;
use super::show::{number_in, part_in, place_in};
use tables::limits::HANDHELD;

// Whether the row is shown, or why not.
pub fn row_number(store: &[u8], scratch: &[u8], row: Row) -> Answer
    ensures { Answers (numbering handheld store.now scratch.now row) (number result) }
{
    number_in(store, scratch, row, HANDHELD)
}

// The part that shows the row: of the store, or of the scratch where its number was written; empty where it is refused.
pub fn row_part<'a>(store: &'a [u8], scratch: &'a mut [u8], row: Row) -> &'a [u8]
    ensures { PartGiven handheld store.entry (lent scratch.entry) row result }
{
    part_in(store, scratch, row, HANDHELD)
}

// Where that part is. A contract cannot speak of a slice that may live on in the result: this one, of the same writing step, says what is left of the scratch.
pub fn row_place(store: &[u8], scratch: &mut [u8], row: Row) -> Place
    ensures { Answers (showing handheld store.now scratch.old row) (leaves result scratch.new) }
{
    place_in(store, scratch, row, HANDHELD)
}
