// Which table has a row, and which of its rows it is.
ghost use Rattle.plain_rows.specs.Naming.{PlacedIn, SpotIs};

use screen::rows::Row;
use writing::Kind;

// A place of a table with so many places; none where it has fewer.
fn placed(kind: Kind, n: usize, places: usize) -> Option<(Kind, usize)>
    ensures { PlacedIn kind n places result }
{
    if n < places { Some((kind, n)) } else { None }
}

// The table that has a row, and which of its rows it is; none where no table has it. Status codes start at 32.
pub(crate) fn spot_of(row: Row) -> Option<(Kind, usize)>
    ensures { SpotIs row result }
{
    match row {
        Row::Line(n) => Some((Kind::Lines, n)),
        Row::QuickText(n) => placed(Kind::QuickTexts, n, 64),
        Row::StatusText(n) => {
            if n < 32 {
                None
            } else {
                placed(Kind::StatusTexts, n - 32, 96)
            }
        }
        Row::Group(n) => placed(Kind::Group, n, 16),
        Row::Individual(n) => placed(Kind::Individual, n, 16),
        Row::GroupContact(n) => Some((Kind::GroupContacts, n)),
        Row::IndividualContact(n) => Some((Kind::IndividualContacts, n)),
        Row::LineSlot(n) => placed(Kind::LineSlot, n, 16),
        Row::NoTable => None,
    }
}
