// Writes the quick texts and the status texts as settings.
ghost use Rattle.std.specs.Prelude.{◌≡◌, ◌+◌, ◌≤◌, length};
ghost use Rattle.tables.specs.Layout.{quick_width};
ghost use Rattle.export_write.specs.EntryWriters.{QuickIn, last_quick, WritesQuicks, WritesStatuses};
ghost use Rattle.export_write.specs.Writers.{WritesAll};

use super::entries::{TextTable, write_entries, write_entry};
use super::writers::{FIRST, NOTHING, Settings, start_setting, write_bytes};
use slots::bytes::is_zeros;
use tables::places::{
    QUICK_PLACES, QUICK_SIZE, QUICK_SLOT, STATUS_PLACES, STATUS_SIZE, STATUS_SLOT, STATUS_TEXT,
};

// The index of the last quick text, and where it stands.
const LAST: usize = QUICK_PLACES - 1;

const LAST_AT: usize = QUICK_SIZE - QUICK_SLOT;

// The count of a setting of quick texts has 6 bits, so that the last stands in a setting of its own.
const QUICK: TextTable = TextTable {
    width: QUICK_SLOT,
    skip: 0,
    places: QUICK_PLACES,
    first: 0,
    most: LAST,
};

const STATUS: TextTable = TextTable {
    width: STATUS_SLOT,
    skip: STATUS_TEXT,
    places: STATUS_PLACES,
    first: 32,
    most: STATUS_PLACES,
};

// A replace by all status texts.
pub fn export_status(buffer: &mut [u8], region: &[u8]) -> Settings
    ensures { WritesStatuses region.now buffer.old buffer.new result }
{
    if region.len() != STATUS_SIZE {
        return NOTHING;
    }
    if buffer.len() < FIRST + 3365 {
        return NOTHING;
    }
    let entries = write_entries(buffer, FIRST + 5, STATUS, region);
    let head = [0xC0, entries.count as u8];
    write_bytes(buffer, FIRST + 3, &head);
    let end = start_setting(buffer, FIRST, 0xD0, entries.end);
    Settings { end, count: 1 }
}

// An add of the last quick text, where there is one.
fn write_last_quick(buffer: &mut [u8], at: usize, slot: &[u8]) -> Settings
    requires { (length slot.now ≡ quick_width) × (at + 53 ≤ length buffer.old) }
    ensures { (result.count ≤ 1) × WritesAll (QuickIn slot.now) last_quick at 53 buffer.old buffer.new result }
{
    if is_zeros(slot) {
        return Settings { end: at, count: 0 };
    }
    let head = [0x41];
    let entry = write_bytes(buffer, at + 3, &head);
    let last = write_entry(buffer, entry, LAST as u8, slot, 0);
    let end = start_setting(buffer, at, 0xCC, last);
    Settings { end, count: 1 }
}

// A replace by the first 63 quick texts, and an add of the last where there are 64.
pub fn export_quick(buffer: &mut [u8], region: &[u8]) -> Settings
    ensures { WritesQuicks region.now buffer.old buffer.new result }
{
    if region.len() != QUICK_SIZE {
        return NOTHING;
    }
    if buffer.len() < FIRST + 3144 {
        return NOTHING;
    }
    let entries = write_entries(buffer, FIRST + 4, QUICK, region);
    let head = [0xC0 + entries.count as u8];
    write_bytes(buffer, FIRST + 3, &head);
    let end = start_setting(buffer, FIRST, 0xCC, entries.end);
    if entries.next == QUICK_PLACES {
        return Settings { end, count: 1 };
    }
    let more = write_last_quick(buffer, end, &region[LAST_AT..QUICK_SIZE]);
    Settings {
        end: more.end,
        count: 1 + more.count,
    }
}
