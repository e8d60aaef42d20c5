// A slot of a head and a text, filled with both.
ghost use Rattle.tables.specs.Changing.{SlotFilled};

use super::texts::put_text;
use read_fields::texts::TextPlace;
use slots::bytes::copy;

// Puts the head, and the text of a place behind it. A slot without room for the head stays.
pub fn fill_slot(slot: &mut [u8], head: &[u8], m: &[u8], text: TextPlace)
    ensures { SlotFilled m.now text head.now slot.old slot.new }
{
    let n = head.len();
    if slot.len() < n {
        return;
    }
    copy(slot, head);
    put_text(&mut slot[n..], m, text);
}
