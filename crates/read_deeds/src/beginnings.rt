// The first deed of a setting that was read, and the entries that are left after it.
ghost use Rattle.read_deeds.specs.ReadDeeds.{ListBegun, SingleBegun, MemberBegun, LineBegun, SlotBegins, Begins};

use super::codes::number_code;
use super::deeds::{Deed, Left, NONE_LEFT, Put, Turn, doing, opening};
use read_fields::texts::TextPlace;
use settings::settings::{Entries, LinePlace, Setting};
use writing::{Kind, Operation};

// Of a list of entries.
fn begin_list(kind: Kind, operation: Operation, hidden: bool, pabx: bool, entries: Entries) -> Turn
    ensures { ListBegun kind operation hidden pabx entries result }
{
    let coding = entries.coding;
    Turn {
        deed: opening(kind, operation),
        left: Left {
            kind,
            operation,
            hidden,
            pabx,
            coding,
            start: entries.start,
            total: entries.count,
            count: entries.count,
        },
    }
}

// Of a setting with one entry.
fn single(deed: Deed) -> Turn
    ensures { SingleBegun deed result }
{
    Turn {
        deed,
        left: NONE_LEFT,
    }
}

// Of a group's slot or an individual's.
fn begin_member(
    kind: Kind,
    operation: Operation,
    index: u8,
    address: u32,
    hidden: bool,
    text: TextPlace,
) -> Turn
    ensures { MemberBegun kind operation index address hidden text result }
{
    let put = Put {
        key: index as u64,
        name: address as u64,
        hidden,
        text,
    };
    single(doing(kind, operation, put))
}

// Of a line's slot.
fn begin_line(m: &[u8], operation: Operation, place: LinePlace) -> Turn
    ensures { LineBegun m.now operation place result }
{
    let contact = place.contact;
    let digits = contact.number;
    let text = contact.text;
    let put = Put {
        key: place.index as u64,
        name: number_code(m, digits),
        hidden: false,
        text,
    };
    single(doing(Kind::LineSlot, operation, put))
}

// Of a slot, or of a setting of which nothing is seen.
fn begin_slot(m: &[u8], setting: Setting) -> Turn
    ensures { SlotBegins m.now setting result }
{
    match setting {
        Setting::Group(operation, flags, place) => {
            let address = place.address;
            let text = place.text;
            let hidden = flags.attribute == 1;
            begin_member(Kind::Group, operation, place.index, address.0, hidden, text)
        }
        Setting::Individual(operation, _, place) => {
            let address = place.address;
            let text = place.text;
            begin_member(
                Kind::Individual,
                operation,
                place.index,
                address.0,
                false,
                text,
            )
        }
        Setting::LineSlot(operation, _, place) => begin_line(m, operation, place),
        _ => single(Deed::Nothing),
    }
}

// Of any setting.
pub fn begin(m: &[u8], setting: Setting) -> Turn
    ensures { Begins m.now setting result }
{
    match setting {
        Setting::GroupContacts(operation, flags, entries) => begin_list(
            Kind::GroupContacts,
            operation,
            flags.attribute == 1,
            false,
            entries,
        ),
        Setting::IndividualContacts(operation, _, entries) => {
            begin_list(Kind::IndividualContacts, operation, false, false, entries)
        }
        Setting::Lines(operation, flags, entries) => {
            begin_list(Kind::Lines, operation, false, flags.pabx, entries)
        }
        Setting::QuickTexts(operation, entries) => {
            begin_list(Kind::QuickTexts, operation, false, false, entries)
        }
        Setting::Channels(operation, entries) => {
            begin_list(Kind::Channels, operation, false, false, entries)
        }
        Setting::StatusTexts(operation, entries) => {
            begin_list(Kind::StatusTexts, operation, false, false, entries)
        }
        _ => begin_slot(m, setting),
    }
}
