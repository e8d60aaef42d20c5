// The entry of a list that has a key, by halving the order behind its n places.
ghost use Rattle.orders.specs.OrderedLists.{EntryFound};

use super::orders::find;
use counted_lists::counts::count;

// The place of the entry with a key.
pub fn find_entry(part: &[u8], w: usize, o: usize, n: usize, key: &[u8]) -> Option<usize>
    ensures { EntryFound w o n key.now part.now result }
{
    if part.len() < n || part.len() - n < 2 {
        return None;
    }
    let base = part.len() - n;
    let held = count(&part[0..base]);
    find(&part[2..], w, o, key.len(), n, held, key)
}
