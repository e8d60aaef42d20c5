// The bytes of a line contact's slot: its head, which has flags, IDtype and digits, and its text.
ghost use Rattle.store_lists.specs.Lists.{LineSlot};

use read_fields::entries::ContactPlace;
use tables::filling::fill_slot;
use tables::line_heads::line_head;
use tables::places::LINE_SLOT;
use writing::LineFlags;

// The slot of a line contact that stands at a place of the message.
pub(crate) fn line_slot(m: &[u8], flags: LineFlags, place: ContactPlace) -> [u8; LINE_SLOT]
    ensures { LineSlot m.now flags place result }
{
    let head = line_head(m, flags, place.number);
    let mut slot = [0u8; LINE_SLOT];
    fill_slot(&mut slot, &head, m, place.text);
    slot
}
