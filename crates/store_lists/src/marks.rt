// A mark for each channel that is in a list, by its number: deletes look there, and not through the list.
ghost use Rattle.std.specs.Prelude.{◌≡◌, ◌+◌, ◌*◌};
ghost use Rattle.store_lists.specs.Lists.{Marked, OneMarked};

use counted_lists::counts::count;

// A mark for each number up to the highest that a channel has, 640.
pub(crate) const MARKS: usize = 641;

// Two bytes as a number, high byte first.
fn pair(high: u8, low: u8) -> usize
    ensures { result ≡ high * 256 + low }
{
    usize::from(u16::from_be_bytes([high, low]))
}

// Marks a number, if there is a mark for it.
fn mark(marks: &mut [u8], n: usize)
    ensures { OneMarked n marks.old marks.new }
{
    if marks.len() <= n {
        return;
    }
    marks[n] = 1;
}

// Marks the channels of a list.
pub(crate) fn mark_channels(list: &[u8], marks: &mut [u8])
    ensures { Marked list.now marks.new }
{
    if list.len() < 2 {
        return;
    }
    let held = count(list);
    if (list.len() - 2) / 2 < held {
        return;
    }
    for i in 0..held {
        mark(marks, pair(list[2 * i + 2], list[2 * i + 3]));
    }
}
