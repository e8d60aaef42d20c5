// What a deed makes of what its table weighs: how many entries it has, and how many bytes their texts take.
ghost use Rattle.plain_weigh.specs.Weighing.{RoomIs, TakesPlace, EntriesPut, GoneIs, UnitsTake, KnownBytes, BytesPut, WeighPut, WeighRemoved, WeighIs};

use plain_look::known::Looked;
use read_deeds::deeds::{Deed, Put};
use tables::limits::HANDHELD;
use writing::Kind;

#[derive(Clone, Copy)]
pub struct Weight {
    pub entries: usize,
    pub bytes: usize,
}

// Texts that take more than this many bytes are not weighed.
pub const BYTES: usize = 0x1_0000_0000;

// Places for contacts of a kind.
const CONTACTS: usize = 64;

// How many entries a table has room for; none where it always has room.
fn room_of(kind: Kind) -> Option<usize>
    ensures { RoomIs kind result }
{
    match kind {
        Kind::GroupContacts | Kind::IndividualContacts => Some(CONTACTS),
        Kind::Lines => Some(HANDHELD.lines),
        Kind::Channels => Some(HANDHELD.channels),
        _ => None,
    }
}

// Whether an entry that is put takes the place of one with its key, which no channel does.
fn takes_place(kind: Kind, known: Looked) -> bool
    ensures { TakesPlace kind known result }
{
    match kind {
        Kind::Channels => false,
        _ => known.found.is_some(),
    }
}

// How many entries there are when one is put; none where there is no room.
fn entries_put(room: Option<usize>, takes: bool, entries: usize) -> Option<usize>
    ensures { EntriesPut room takes entries result }
{
    let Some(most) = room else {
        return Some(0);
    };
    if takes {
        return Some(entries);
    }
    if entries < most {
        return Some(entries + 1);
    }
    None
}

// How many entries go with a key: of channels all that were put.
fn gone(kind: Kind, known: Looked) -> usize
    ensures { GoneIs kind known result }
{
    match kind {
        Kind::Channels => known.often,
        _ => { if known.found.is_some() { 1 } else { 0 } }
    }
}

// The bytes of a text of so many units.
fn bytes_of(units: usize) -> usize
    ensures { UnitsTake units result }
{
    if BYTES <= units {
        return 0;
    }
    2 * units
}

// The bytes of the text that is known.
fn known_bytes(known: Looked) -> usize
    ensures { KnownBytes known result }
{
    match known.found {
        None => 0,
        Some(found) => bytes_of(found.put.text.units),
    }
}

// The bytes of the text that stands when an entry was put: of quick texts the first stays.
fn standing_bytes(kind: Kind, put: Put, known: Looked) -> usize
    ensures { BytesPut kind put known result }
{
    let anew = bytes_of(put.text.units);
    let Some(before) = known.found else {
        return anew;
    };
    match kind {
        Kind::QuickTexts => bytes_of(before.put.text.units),
        _ => anew,
    }
}

// An entry is put; none where there is no room.
fn weigh_put(kind: Kind, put: Put, known: Looked, weight: Weight) -> Option<Weight>
    ensures { WeighPut kind put known weight result }
{
    if BYTES <= weight.bytes {
        return None;
    }
    let entries = entries_put(room_of(kind), takes_place(kind, known), weight.entries)?;
    let bytes = weight.bytes + standing_bytes(kind, put, known);
    Some(Weight {
        entries,
        bytes: bytes.saturating_sub(known_bytes(known)),
    })
}

// The entries with a key go.
fn weigh_removed(kind: Kind, known: Looked, weight: Weight) -> Weight
    ensures { WeighRemoved kind known weight result }
{
    let entries = match room_of(kind) {
        None => 0,
        Some(_) => weight.entries.saturating_sub(gone(kind, known)),
    };
    Weight {
        entries,
        bytes: weight.bytes.saturating_sub(known_bytes(known)),
    }
}

// A deed, by what is known of its key; none where there is no room.
pub(crate) fn weigh(deed: Deed, known: Looked, weight: Weight) -> Option<Weight>
    ensures { WeighIs deed known weight result }
{
    match deed {
        Deed::Nothing => Some(weight),
        Deed::Clears(_) => Some(Weight {
            entries: 0,
            bytes: 0,
        }),
        Deed::Puts(kind, put) => weigh_put(kind, put, known, weight),
        Deed::Removes(kind, _) => Some(weigh_removed(kind, known, weight)),
    }
}
