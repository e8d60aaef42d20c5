// A row of the desk emulator's screen: its number, the place of its text, and the part itself.
ghost use Rattle.lists.specs.Ladder.{Answers};
ghost use Rattle.screen.specs.Screen.{number, leaves, lent};
ghost use Rattle.plain_rows.specs.PlainRows.{plain_numbering, plain_showing, PlainPart, PlainPlaced};
ghost use Rattle.plain_rows.specs.Naming.{ScratchPicked};

use super::names::{Name, name_of};
use super::writing_out::{write_line, write_text};
use plan::numbers::{dialled_of_group, dialled_of_individual};
use screen::answers::{Answer, Place};
use screen::numbers::write_dialled;
use screen::rows::Row;

// Whether the row is shown, or why not.
pub fn row_number(area: &[u8], scratch: &[u8], row: Row) -> Answer
    ensures { Answers (plain_numbering area.now scratch.now row) (number result) }
{
    match name_of(area, scratch.len(), row) {
        Err(why) => Answer::Refused(why),
        Ok(_) => Answer::Shown,
    }
}

// Where the row's text is: at the start of the scratch, where it is written.
pub fn row_place(area: &[u8], scratch: &mut [u8], row: Row) -> Place
    ensures { PlainPlaced area.now scratch.old scratch.new row result }
{
    let name = match name_of(area, scratch.len(), row) {
        Ok(name) => name,
        Err(why) => return Place::Refused(why),
    };
    match name {
        Name::Text(place) => Place::Scratch(write_text(scratch, area, place)),
        Name::Line(code) => Place::Scratch(write_line(scratch, code)),
        Name::Group(a) => Place::Scratch(write_dialled(scratch, dialled_of_group(a), a.0)),
        Name::Individual(a) => {
            Place::Scratch(write_dialled(scratch, dialled_of_individual(a), a.0))
        }
    }
}

// The part at a place of the scratch, empty where there is none.
fn pick(scratch: &[u8], place: Place) -> &[u8]
    ensures { ScratchPicked scratch.entry place result }
{
    let Place::Scratch(bytes) = place else {
        return &scratch[0..0];
    };
    if scratch.len() < bytes {
        return &scratch[0..0];
    }
    &scratch[0..bytes]
}

// The part of the scratch that shows the row; empty where it is refused.
pub fn row_part<'a>(area: &[u8], scratch: &'a mut [u8], row: Row) -> &'a [u8]
    ensures { PlainPart area.now (lent scratch.entry) row result }
{
    let place = row_place(area, scratch, row);
    pick(scratch, place)
}
