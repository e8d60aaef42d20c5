// Which table has a row, among those that have texts, by their number in a store.
ghost use Rattle.std.specs.Prelude.{◌≡◌};
ghost use Rattle.screen.specs.Areas.{spot_of};

use super::rows::Row;
use working::runs::TEXT_TABLES;

// A row of one of these tables.
#[derive(Clone, Copy)]
pub struct Spot {
    pub table: usize,
    pub place: usize,
}

// A row of none of them.
const NOWHERE: Spot = Spot {
    table: TEXT_TABLES,
    place: 0,
};

// The table that has a row, and its row there; status codes start at 32.
pub(crate) fn spot_of(row: Row) -> Spot
    ensures { result ≡ spot_of row }
{
    match row {
        Row::QuickText(n) => Spot { table: 0, place: n },
        Row::StatusText(n) => {
            if n < 32 {
                NOWHERE
            } else {
                Spot {
                    table: 1,
                    place: n - 32,
                }
            }
        }
        Row::Group(n) => Spot { table: 2, place: n },
        Row::Individual(n) => Spot { table: 3, place: n },
        Row::LineSlot(n) => Spot { table: 4, place: n },
        Row::GroupContact(n) => Spot { table: 5, place: n },
        Row::IndividualContact(n) => Spot { table: 6, place: n },
        Row::Line(n) => Spot { table: 7, place: n },
        Row::NoTable => NOWHERE,
    }
}
