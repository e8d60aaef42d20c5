// Texts in the store: units of two bytes, whatever their width in the message, and zeros after them.
ghost use Rattle.tables.specs.Changing.{TextPut};

use read_fields::texts::{TextPlace, unit_bytes};
use slots::bytes::{copy_padded, widen_padded};
use writing::Coding;

// Fills dst with a text's units, and zeros after them. A place outside the message changes nothing.
pub fn put_text(dst: &mut [u8], m: &[u8], place: TextPlace)
    ensures { TextPut m.now place dst.old dst.new }
{
    let coding = place.coding;
    let width = unit_bytes(coding);
    if m.len() < place.start {
        return;
    }
    if (m.len() - place.start) / width < place.units {
        return;
    }
    let a = place.start;
    let e = a + width * place.units;
    match coding {
        Coding::Unicode16 => copy_padded(dst, &m[a..e]),
        Coding::EightBit => widen_padded(dst, &m[a..e]),
    }
}
