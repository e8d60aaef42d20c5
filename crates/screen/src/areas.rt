// The area that texts share: where a row's text stands in it, which the heads before the row's say.
ghost use Rattle.std.specs.Prelude.{◌<◌, ◌≡◌, length};
ghost use Rattle.working.specs.Areas.{InHeads};
ghost use Rattle.screen.specs.Areas.{shared_span};

use super::spots::Spot;
use tables::limits::Limits;
use working::areas::{area_at, units_before};

// A text in the store: where it starts, and how many bytes it has.
#[derive(Clone, Copy)]
pub struct Span {
    pub start: usize,
    pub bytes: usize,
}

// A byte as a number of any size.
fn wide(x: u8) -> usize
    ensures { (result ≡ x) × (result < 256) }
{
    x as usize
}

// Where a row's text stands in the area; the last byte of its head says how many units it has.
pub(crate) fn shared_text(store: &[u8], limits: Limits, spot: Spot, last: usize) -> Span
    requires { InHeads limits store.now spot.table spot.place × (last < length store.now) }
    ensures { result ≡ shared_span limits store.now spot last }
{
    let before = units_before(store, limits, spot.table, spot.place);
    let start = area_at(limits) + 2 * before;
    Span {
        start: start,
        bytes: 2 * wide(store[last]),
    }
}
