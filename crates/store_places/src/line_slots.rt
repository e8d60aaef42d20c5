// Line slots: a place for each index of 4 bits, which holds a line.
ghost use Rattle.store_places.specs.Changes.{LineSlotApplied};

use super::overwriting::set_place;
use settings::settings::LinePlace;
use tables::line_heads::line_head;
use tables::places::LINE_SLOT;
use writing::{LineFlags, Operation};

pub fn apply_line_slot(
    region: &mut [u8],
    m: &[u8],
    operation: Operation,
    flags: LineFlags,
    place: LinePlace,
)
    ensures { LineSlotApplied m.now operation flags place region.old region.new }
{
    let contact = place.contact;
    let head = line_head(m, flags, contact.number);
    set_place(
        region,
        LINE_SLOT,
        place.index,
        &head,
        m,
        operation,
        contact.text,
        false,
    );
}
