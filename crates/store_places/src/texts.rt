// Quick texts, which have a place for each index of 6 bits, and status texts, which have one for each code from 32 to 127.
ghost use Rattle.read_fields.specs.Entries.{EntryAt};
ghost use Rattle.store_places.specs.Changes.{entry_form, Readable, TextStep, TextsApplied};

use super::overwriting::set_place;
use read_fields::entries::{EntryPlace, read_quick, read_status};
use settings::settings::Entries;
use tables::places::{QUICK_SLOT, STATUS_SLOT};
use tables::replacing::empty_to_replace;
use writing::{Coding, Operation};

// Which of the two tables.
#[derive(Clone, Copy)]
pub enum TextTable {
    Quick,
    Status,
}

// Reads an entry, in a delete or not.
fn read_entry(m: &[u8], at: usize, table: TextTable, coding: Coding) -> Option<(EntryPlace, usize)>
    ensures { EntryAt (entry_form table coding) (Readable table) m.now at result }
{
    match table {
        TextTable::Quick => read_quick(m, at, 0, coding),
        TextTable::Status => read_status(m, at, coding),
    }
}

// Applies one entry: a quick text that is there is kept, and status code 32 has the first place.
fn apply_entry(
    region: &mut [u8],
    m: &[u8],
    table: TextTable,
    operation: Operation,
    place: EntryPlace,
)
    ensures { TextStep table m.now operation place region.old region.new }
{
    let head: [u8; 1] = [1];
    match table {
        TextTable::Quick => set_place(
            region,
            QUICK_SLOT,
            place.index,
            &head[0..0],
            m,
            operation,
            place.text,
            true,
        ),
        TextTable::Status => {
            if place.index < 32 {
                return;
            }
            set_place(
                region,
                STATUS_SLOT,
                place.index - 32,
                &head,
                m,
                operation,
                place.text,
                false,
            );
        }
    }
}

// Applies the entries in order. Entries that do not stand in the message end it.
pub fn apply_texts(
    region: &mut [u8],
    m: &[u8],
    table: TextTable,
    operation: Operation,
    entries: Entries,
)
    ensures { TextsApplied table m.now operation entries region.old region.new }
{
    empty_to_replace(region, operation);
    let coding = entries.coding;
    let mut p = entries.start;
    for _ in 0..entries.count {
        let Some((place, next)) = read_entry(m, p, table, coding) else {
            return;
        };
        apply_entry(region, m, table, operation, place);
        p = next;
    }
}
