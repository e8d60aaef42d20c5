// Looks through deeds for a row.
ghost use Rattle.std.specs.Prelude.{◌≡◌};
ghost use Rattle.events.specs.Knowing.{listed};
ghost use Rattle.plain_look.specs.Looking.{BornHere, RowOn, RowIs};

use super::known::{DEEDS, UNKNOWN, same_kind};
use super::look::look;
use read_deeds::cursors::{Cursor, next_deed};
use read_deeds::deeds::{Deed, Put};
use writing::Kind;

// The entry that the deed of this number put, as it is after all deeds, where that deed is the one that it was born at.
fn born_here(
    m: &[u8],
    cursor: Cursor,
    count: usize,
    kind: Kind,
    number: usize,
    deed: Deed,
) -> Option<Put>
    ensures { BornHere m.now cursor count kind number deed result }
{
    let Deed::Puts(of, put) = deed else {
        return None;
    };
    if !same_kind(of, kind) {
        return None;
    }
    let known = look(m, cursor, 0, count, kind, put.key, UNKNOWN);
    let found = known.found?;
    if found.birth != number {
        return None;
    }
    Some(found.put)
}

// The entry of a list in a position.
fn listed_row(m: &[u8], cursor: Cursor, count: usize, kind: Kind, position: usize) -> Option<Put>
    ensures { RowOn m.now cursor count kind position result }
{
    if DEEDS <= count {
        return None;
    }
    let mut here = cursor;
    let mut before = position;
    for i in 0..count {
        let moved = next_deed(m, here);
        if let Some(put) = born_here(m, cursor, count, kind, i, moved.deed) {
            if before == 0 {
                return Some(put);
            }
            before -= 1;
        }
        here = moved.cursor;
    }
    None
}

// Whether rows of a kind go by position.
fn is_listed(kind: Kind) -> bool
    ensures { result ≡ listed kind }
{
    match kind {
        Kind::GroupContacts | Kind::IndividualContacts | Kind::Lines => true,
        _ => false,
    }
}

// The entry in a row, after so many deeds from a cursor on.
pub fn row_seen(m: &[u8], cursor: Cursor, count: usize, kind: Kind, row: usize) -> Option<Put>
    ensures { RowIs m.now cursor count kind row result }
{
    if is_listed(kind) {
        return listed_row(m, cursor, count, kind, row);
    }
    let known = look(m, cursor, 0, count, kind, row as u64, UNKNOWN);
    let found = known.found?;
    Some(found.put)
}
