// The deeds of a setting, weighed in turn by what is known of their keys from all deeds before them.
ghost use Rattle.plain_weigh.specs.Weighing.{LookBoth, KnownFor, WeighNext, Weighs};

use super::weights::{Weight, weigh};
use plain_look::known::{DEEDS, Looked, UNKNOWN};
use plain_look::look::look;
use read_deeds::cursors::{Cursor, at_settings};
use read_deeds::deeds::{Deed, Turn};
use read_deeds::entries::next_entry;
use writing::{Coding, Kind};

// The deeds that were read before: so many of the log, and so many of the request from its first setting on.
#[derive(Clone, Copy)]
pub struct Before {
    pub logged: usize,
    pub first: Cursor,
    pub passed: usize,
}

// Where the first request of a log stands.
pub const LOG: usize = 4;

// What is known of a key after all deeds before.
fn look_both(log: &[u8], m: &[u8], before: Before, kind: Kind, key: u64) -> Looked
    ensures { LookBoth log.now m.now before kind key result }
{
    let start = at_settings(LOG, 0, Coding::Unicode16);
    let known = look(log, start, 0, before.logged, kind, key, UNKNOWN);
    let first = before.first;
    look(m, first, before.logged, before.passed, kind, key, known)
}

// What is known of the key of a deed.
fn known_for(log: &[u8], m: &[u8], before: Before, deed: Deed) -> Looked
    ensures { KnownFor log.now m.now before deed result }
{
    match deed {
        Deed::Nothing | Deed::Clears(_) => UNKNOWN,
        Deed::Puts(kind, put) => look_both(log, m, before, kind, put.key),
        Deed::Removes(kind, key) => look_both(log, m, before, kind, key),
    }
}

// One deed more; none where there is no room.
fn weigh_next(log: &[u8], m: &[u8], before: Before, deed: Deed, weight: Weight) -> Option<Weight>
    ensures { WeighNext log.now m.now before deed weight result }
{
    let known = known_for(log, m, before, deed);
    weigh(deed, known, weight)
}

// What the table weighs after all deeds of a setting that begins with this turn and how many deeds of the request were read; none where there was no room.
pub fn weigh_setting(
    log: &[u8],
    m: &[u8],
    before: Before,
    turn: Turn,
    weight: Weight,
) -> Option<(Weight, usize)>
    ensures { Weighs log.now m.now before turn weight result }
{
    let mut so_far = weigh_next(log, m, before, turn.deed, weight)?;
    if DEEDS <= before.passed || DEEDS <= turn.left.count {
        return None;
    }
    let mut left = turn.left;
    let mut here = before;
    here.passed = before.passed + 1;
    for _ in 0..turn.left.count {
        let next = next_entry(m, left);
        so_far = weigh_next(log, m, here, next.deed, so_far)?;
        left = next.left;
        here.passed += 1;
    }
    Some((so_far, here.passed))
}
