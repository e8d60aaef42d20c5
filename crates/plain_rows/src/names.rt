// What a row shows: where its text stands in the area, or the number of what it names.
ghost use Rattle.lists.specs.Ladder.{Answers};
ghost use Rattle.plain_rows.specs.Naming.{FoundIn, AddressOf, NameFound, plain_naming};

use super::spots::spot_of;
use plain_log::checks::check_area;
use plain_look::rows::row_seen;
use plan::numbers::{GroupAddress, IndividualAddress};
use read_deeds::cursors::at_settings;
use read_deeds::deeds::Put;
use read_fields::texts::TextPlace;
use screen::rows::{Refusal, Row};
use writing::Coding;

// A text in the area, a line's number behind a 1, or an address whose number is to be written.
#[derive(Clone, Copy)]
pub enum Name {
    Text(TextPlace),
    Line(u64),
    Group(GroupAddress),
    Individual(IndividualAddress),
}

// What the deeds of an area, so many, have in a row.
fn find(area: &[u8], deeds: usize, row: Row) -> Option<Put>
    ensures { FoundIn area.now deeds row result }
{
    let (kind, n) = spot_of(row)?;
    row_seen(area, at_settings(4, 0, Coding::Unicode16), deeds, kind, n)
}

// An address of 24 bits.
fn address_of(name: u64) -> u32
    ensures { AddressOf name result }
{
    (name % 0x100_0000) as u32
}

// By what was found.
fn name_found(row: Row, found: Option<Put>) -> Result<Name, Refusal>
    ensures { NameFound row found result }
{
    let Some(put) = found else {
        return Err(Refusal::Absent);
    };
    if put.hidden {
        return Err(Refusal::Absent);
    }
    let text = put.text;
    if text.units != 0 {
        return Ok(Name::Text(text));
    }
    Ok(match row {
        Row::Line(_) | Row::LineSlot(_) => Name::Line(put.name),
        Row::Group(_) | Row::GroupContact(_) => Name::Group(GroupAddress(address_of(put.name))),
        Row::Individual(_) | Row::IndividualContact(_) => {
            Name::Individual(IndividualAddress(address_of(put.name)))
        }
        _ => Name::Text(text),
    })
}

// What stands in a row, where scratch and area are what they have to be.
pub fn name_of(area: &[u8], room: usize, row: Row) -> Result<Name, Refusal>
    ensures { Answers (plain_naming area.now room row) result }
{
    if room < 64 {
        return Err(Refusal::ScratchSize);
    }
    let mut weights = [0usize; 27];
    let Some(seen) = check_area(area, &mut weights) else {
        return Err(Refusal::NotAStore);
    };
    name_found(row, find(area, seen.deeds, row))
}
