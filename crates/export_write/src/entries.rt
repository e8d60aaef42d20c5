// Writes the texts of a table as entries, each with its index or code.
ghost use Rattle.std.specs.Prelude.{◌+◌, ◌*◌, ◌-◌, ◌≤◌, length};
ghost use Rattle.export_write.specs.EntryWriters.{entry_size, Indexed, EntersAll, WritesEntry};

use super::texts::write_text;
use super::writers::write_bytes;
use slots::bytes::is_zeros;

// A table of texts: its slots, where the text starts in one, the index or code of the first, and how many entries one setting takes.
#[derive(Clone, Copy)]
pub(crate) struct TextTable {
    pub width: usize,
    pub skip: usize,
    pub places: usize,
    pub first: usize,
    pub most: usize,
}

// Entries that were written: the place after them, how many they are, and the first place of the table that was not looked at.
#[derive(Clone, Copy)]
pub(crate) struct Entries {
    pub end: usize,
    pub count: usize,
    pub next: usize,
}

// The entry of a text that stands in a slot from skip on.
pub(crate) fn write_entry(
    buffer: &mut [u8],
    at: usize,
    index: u8,
    slot: &[u8],
    skip: usize,
) -> usize
    requires { (skip ≤ length slot.now) × (at + (length slot.now - skip + 3) ≤ length buffer.old) }
    ensures { WritesEntry index skip slot.now at buffer.old buffer.new result }
{
    let head = [index];
    let text = write_bytes(buffer, at, &head);
    write_text(buffer, text, &slot[skip..])
}

// The entries of a table, in order, until the most are written.
pub(crate) fn write_entries(
    buffer: &mut [u8],
    at: usize,
    table: TextTable,
    region: &[u8],
) -> Entries
    requires { Indexed table region.now × (at + table.most * entry_size table ≤ length buffer.old) }
    ensures { EntersAll table region.now at buffer.old buffer.new result }
{
    let mut end = at;
    let mut count = 0;
    for next in 0..table.places {
        if count == table.most {
            return Entries { end, count, next };
        }
        let a = next * table.width;
        let e = a + table.width;
        if !is_zeros(&region[a..e]) {
            let index = (table.first + next) as u8;
            end = write_entry(buffer, end, index, &region[a..e], table.skip);
            count += 1;
        }
    }
    Entries {
        end,
        count,
        next: table.places,
    }
}
