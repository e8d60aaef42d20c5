// Looks through deeds for one key.
ghost use Rattle.plain_look.specs.Looking.{LookIs};

use super::known::{DEEDS, Looked, know};
use read_deeds::cursors::{Cursor, next_deed};
use writing::Kind;

// What is known of a key after so many deeds from a cursor on, the first of which has this number.
pub fn look(
    m: &[u8],
    cursor: Cursor,
    first: usize,
    count: usize,
    kind: Kind,
    key: u64,
    known: Looked,
) -> Looked
    ensures { LookIs m.now cursor first count kind key known result }
{
    if DEEDS <= first || DEEDS <= count {
        return known;
    }
    let mut here = cursor;
    let mut now_known = known;
    for i in 0..count {
        let moved = next_deed(m, here);
        now_known = know(kind, key, first + i, moved.deed, now_known);
        here = moved.cursor;
    }
    now_known
}
