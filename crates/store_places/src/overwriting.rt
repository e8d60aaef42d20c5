// A slot of a head and a text. "Status texts and slots: add overwrites"; of a quick text "add to an index that has a text does nothing".
ghost use Rattle.std.specs.Prelude.{◌≡◌, ◌+◌, ◌*◌, ◌≤◌, ◌<◌, length};
ghost use Rattle.store_places.specs.Changes.{free?, SlotPut, SlotSet, PlaceSet};

use read_fields::texts::TextPlace;
use slots::bytes::{is_zeros, wipe};
use tables::filling::fill_slot;
use writing::Operation;

// Whether a slot may be filled: one that is to be kept only where it is empty.
fn is_free(slot: &[u8], keep: bool) -> bool
    ensures { result ≡ free? keep slot.now }
{
    if keep {
        return is_zeros(slot);
    }
    true
}

// Fills a slot that may be filled with the head and the text.
fn put_slot(slot: &mut [u8], head: &[u8], m: &[u8], text: TextPlace, keep: bool)
    ensures { SlotPut keep m.now text head.now slot.old slot.new }
{
    if !is_free(slot, keep) {
        return;
    }
    fill_slot(slot, head, m, text);
}

// Fills a slot with the head and the text, or wipes it in a delete.
fn set_slot(
    slot: &mut [u8],
    head: &[u8],
    m: &[u8],
    operation: Operation,
    text: TextPlace,
    keep: bool,
)
    ensures { SlotSet keep m.now operation text head.now slot.old slot.new }
{
    match operation {
        Operation::Add => put_slot(slot, head, m, text, keep),
        Operation::Delete => wipe(slot),
        Operation::Replace => put_slot(slot, head, m, text, keep),
    }
}

// Sets place k of slots of w bytes. Bytes that have no such place stay.
pub(crate) fn set_place(
    region: &mut [u8],
    w: usize,
    k: u8,
    head: &[u8],
    m: &[u8],
    operation: Operation,
    text: TextPlace,
    keep: bool,
)
    requires { w < 256 }
    ensures { k * w + w ≤ length region.old → PlaceSet keep m.now operation text head.now w k region.old region.new }
{
    let at = k as usize * w;
    let e = at + w;
    if region.len() < e {
        return;
    }
    set_slot(&mut region[at..e], head, m, operation, text, keep);
}
