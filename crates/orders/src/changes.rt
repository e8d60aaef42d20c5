// What changes a list that has the order of its keys behind its n places: the order is changed step by step, and never made anew.
ghost use Rattle.orders.specs.OrderedLists.{OrderedPut, OrderedDrop};

use super::orders::{drop_order, find, insert_order};
use counted_lists::changes::{drop_keyed, put_keyed};
use counted_lists::counts::count;

// Puts an entry in place of the one with its key, and the order stays; or at the end, where there is room, and it is put into the order.
pub fn put_ordered(part: &mut [u8], w: usize, o: usize, k: usize, n: usize, slot: &[u8]) -> bool
    ensures { OrderedPut w o k n slot.now part.old part.new result }
{
    if part.len() < n || part.len() - n < 2 {
        return false;
    }
    let base = part.len() - n;
    let held = count(&part[0..base]);
    if !put_keyed(&mut part[0..base], w, o, k, slot) {
        return false;
    }
    if count(&part[0..base]) != held {
        insert_order(&mut part[2..], w, o, k, n, held);
    }
    true
}

// Takes the entry with a key out, closes the gap, and leaves its position out of the order.
pub fn drop_ordered(part: &mut [u8], w: usize, o: usize, n: usize, key: &[u8])
    ensures { OrderedDrop w o n key.now part.old part.new }
{
    if part.len() < n || part.len() - n < 2 {
        return;
    }
    let base = part.len() - n;
    let held = count(&part[0..base]);
    let Some(p) = find(&part[2..], w, o, key.len(), n, held, key) else {
        return;
    };
    drop_keyed(&mut part[0..base], w, o, key);
    drop_order(&mut part[2..], n, p);
}
