// What is known of a key of a table after one deed more.
ghost use Rattle.plain_look.specs.Looking.{KindNumber, KindsSame, KnowPut, KnowStep};

use read_deeds::deeds::{Deed, Put};
use writing::Kind;

// An entry that has the key, and the number of the deed that it was born at.
#[derive(Clone, Copy)]
pub struct Found {
    pub birth: usize,
    pub put: Put,
}

// The entry that has the key, where one does, and how often it was put since it last was not there.
#[derive(Clone, Copy)]
pub struct Looked {
    pub found: Option<Found>,
    pub often: usize,
}

// Deeds that are numbered under this many are looked at.
pub const DEEDS: usize = 0x1_0000_0000;

// Nothing is known.
pub const UNKNOWN: Looked = Looked {
    found: None,
    often: 0,
};

// The number of a kind, in the order of the type bytes.
pub fn kind_number(kind: Kind) -> usize
    ensures { KindNumber kind result }
{
    kind as usize
}

// Whether two kinds are the same.
pub fn same_kind(j: Kind, k: Kind) -> bool
    ensures { KindsSame j k result }
{
    kind_number(j) == kind_number(k)
}

// After an entry with the key was put by the deed of this number.
fn know_put(kind: Kind, number: usize, put: Put, known: Looked) -> Looked
    ensures { KnowPut kind number put known result }
{
    let often = if known.often < DEEDS {
        known.often + 1
    } else {
        known.often
    };
    let Some(before) = known.found else {
        let found = Some(Found { birth: number, put });
        return Looked { found, often };
    };
    match kind {
        Kind::QuickTexts => Looked {
            found: Some(before),
            often,
        },
        _ => {
            let birth = before.birth;
            let found = Some(Found { birth, put });
            Looked { found, often }
        }
    }
}

// After a deed.
pub(crate) fn know(kind: Kind, key: u64, number: usize, deed: Deed, known: Looked) -> Looked
    ensures { KnowStep kind key number deed known result }
{
    match deed {
        Deed::Nothing => known,
        Deed::Clears(of) => { if same_kind(of, kind) { UNKNOWN } else { known } }
        Deed::Puts(of, put) => {
            if !same_kind(of, kind) || put.key != key {
                return known;
            }
            know_put(kind, number, put, known)
        }
        Deed::Removes(of, gone) => {
            if same_kind(of, kind) && gone == key {
                UNKNOWN
            } else {
                known
            }
        }
    }
}
