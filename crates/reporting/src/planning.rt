// The plan of a report: how many messages it has, and where the wanted one starts.
ghost use Rattle.std.specs.Prelude.{◌≡◌, ◌≤◌, ◌<◌, length};
ghost use Rattle.tables.specs.Forms.{Roomy};
ghost use Rattle.reporting.specs.Plans.{FitsIs, Steps, TableWalked, PlanIs};

use super::asking::asked_by;
use super::walk::{place_size, places_of};
use reports::Asked;
use tables::limits::Limits;

// The most parameters of a message.
const PARAMETERS: usize = 255;

// The bytes of an error.
const ERROR: usize = 2;

// Of the type at ask among the query's: a place of its table, before which so many entries stand.
#[derive(Clone, Copy)]
pub(crate) struct Cursor {
    pub ask: usize,
    pub place: usize,
    pub rank: usize,
}

// So many messages are closed, and the open one has used bytes and count parameters. The wanted one has own parameters so far, from this cursor on.
#[derive(Clone, Copy)]
pub(crate) struct Walk {
    pub closed: usize,
    pub used: usize,
    pub count: usize,
    pub own: usize,
    pub from: Cursor,
}

// Whether a parameter of this size fits the open message, which has so many and so many bytes.
fn fits(count: usize, used: usize, size: usize, room: usize) -> bool
    ensures { FitsIs count used size room result }
{
    if PARAMETERS <= count {
        return false;
    }
    if room < size {
        return false;
    }
    used <= room - size
}

// The parameter at a cursor goes into the open message, or opens a new one.
fn step(w: Walk, size: usize, here: Cursor, room: usize, j: usize) -> Walk
    requires { (w.closed < 4294967296) × (w.own < 4294967296) }
    ensures { Steps room j size here w result }
{
    let from = w.from;
    if fits(w.count, w.used, size, room) {
        let used = w.used + size;
        let count = w.count + 1;
        let closed = w.closed;
        if closed == j {
            return Walk {
                closed,
                used,
                count,
                own: w.own + 1,
                from,
            };
        }
        return Walk {
            closed,
            used,
            count,
            own: w.own,
            from,
        };
    }
    let closed = w.closed + 1;
    if closed == j {
        return Walk {
            closed,
            used: size,
            count: 1,
            own: 1,
            from: here,
        };
    }
    Walk {
        closed,
        used: size,
        count: 1,
        own: w.own,
        from,
    }
}

// The parameters of the table of the type at ask among the query's.
fn plan_table(
    walk: Walk,
    asked: Asked,
    work: &[u8],
    limits: Limits,
    ask: usize,
    room: usize,
    j: usize,
) -> Walk
    requires { Roomy limits × (length work.now ≡ limits.size) × (walk.closed ≤ 4294901760) × (walk.own ≤ 4294901760) }
    ensures { TableWalked limits asked work.now ask room j walk result }
{
    let places = places_of(asked, limits);
    let mut w = walk;
    let mut rank: usize = 0;
    for place in 0..places {
        let size = place_size(asked, work, limits, place, rank);
        if size != 0 {
            let here = Cursor { ask, place, rank };
            w = step(w, size, here, room, j);
            rank += 1;
        }
    }
    w
}

// The plan of message j, where a message has room for so many bytes of parameters.
// By index: an iterator over bytes gives an Option of a reference, which a module for pointers of 32 bits may not hold.
pub(crate) fn plan_report(types: &[u8], work: &[u8], limits: Limits, room: usize, j: usize) -> Walk
    requires { Roomy limits × (length work.now ≡ limits.size) × (length types.now ≤ 255) }
    ensures { PlanIs limits types.now work.now room j result }
{
    let start = Cursor {
        ask: 0,
        place: 0,
        rank: 0,
    };
    let mut w = Walk {
        closed: 0,
        used: 0,
        count: 0,
        own: 0,
        from: start,
    };
    for ask in 0..types.len() {
        let Some(asked) = asked_by(types[ask]) else {
            let here = Cursor {
                ask,
                place: 0,
                rank: 0,
            };
            return step(w, ERROR, here, room, j);
        };
        w = plan_table(w, asked, work, limits, ask, room, j);
    }
    w
}
