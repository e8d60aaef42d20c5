// A row of the screen: its number, the place of its text, and the part itself.
ghost use Rattle.lists.specs.Ladder.{Answers};
ghost use Rattle.screen.specs.Steps.{Placed, PlaceFits, Picked};
ghost use Rattle.screen.specs.Screen.{number, numbering, PartGiven, lent};

use super::answers::{Answer, Place};
use super::names::{Name, name_of};
use super::numbers::{write_address, write_line};
use super::rows::Row;
use plan::numbers::{dialled_of_group, dialled_of_individual};
use tables::limits::Limits;

// Whether the row is shown, or why not.
pub fn number_in(store: &[u8], scratch: &[u8], row: Row, limits: Limits) -> Answer
    ensures { Answers (numbering limits store.now scratch.now row) (number result) }
{
    let name = name_of(store, scratch.len(), row, limits);
    match name {
        Name::Refused(why) => Answer::Refused(why),
        _ => Answer::Shown,
    }
}

// Where the row's text is; a number is written at the start of the scratch.
pub fn place_in(store: &[u8], scratch: &mut [u8], row: Row, limits: Limits) -> Place
    ensures { Placed limits store.now scratch.old scratch.new row result }
{
    let name = name_of(store, scratch.len(), row, limits);
    match name {
        Name::Refused(why) => Place::Refused(why),
        Name::Text(at, bytes) => Place::Store(at, bytes),
        Name::Digits(at) => {
            let end = at + 18;
            Place::Scratch(write_line(scratch, &store[at..end]))
        }
        Name::Group(a) => Place::Scratch(write_address(scratch, dialled_of_group(a), a.0)),
        Name::Individual(a) => {
            Place::Scratch(write_address(scratch, dialled_of_individual(a), a.0))
        }
    }
}

// The part at a place: of the store, or of the scratch.
fn pick<'a>(store: &'a [u8], scratch: &'a [u8], place: Place) -> &'a [u8]
    requires { PlaceFits store.now scratch.now place }
    ensures { Picked store.entry scratch.entry place result }
{
    match place {
        Place::Store(at, bytes) => {
            let end = at + bytes;
            &store[at..end]
        }
        Place::Scratch(bytes) => &scratch[0..bytes],
        Place::Refused(_) => &store[0..0],
    }
}

// The part of one of the two slices that shows the row.
pub fn part_in<'a>(store: &'a [u8], scratch: &'a mut [u8], row: Row, limits: Limits) -> &'a [u8]
    ensures { PartGiven limits store.entry (lent scratch.entry) row result }
{
    let place = place_in(store, scratch, row, limits);
    pick(store, scratch, place)
}
