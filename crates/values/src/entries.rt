// What stands behind a row: the target that its slot keeps.
ghost use Rattle.std.specs.Prelude.{◌≤◌, length};
ghost use Rattle.lists.specs.Ladder.{Answers};
ghost use Rattle.tables.specs.Allowed.{GroupOk, IndividualOk, LineOk};
ghost use Rattle.tables.specs.Heads.{line_own, member_own};
ghost use Rattle.tables.specs.Store.{StoreOf};
ghost use Rattle.values.specs.Entries.{Filled, Reads, TargetIs, group_own_bytes, individual_own_bytes, line_own_bytes, own_of};
ghost use Rattle.values.specs.Values.{entering, told, group_target, individual_target, line_target};

use super::answers::{NoValue, Target};
use super::flags::{group_flags_of, individual_flags_of, line_flags_of};
use plan::numbers::{GroupAddress, IndividualAddress};
use screen::names::{Slot, address_of, row_slot};
use screen::rows::Row;
use slots::bytes::is_zeros;
use store_check::checks::is_store;
use tables::limits::Limits;
use tables::places::{LINE_IDTYPE, MEMBER_ADDRESS, MEMBER_TEXT};

// A slot begins with its flags.
const FLAGS: usize = 0;

// The target of a line, of the bytes that its slot has before the text; they are the same however texts are kept.
fn line_at(slot: &[u8]) -> Target
    requires { line_own ≤ length slot.now }
    ensures { Reads LineOk line_own_bytes line_target slot.now result }
{
    Target::Line(line_flags_of(slot[FLAGS], slot[LINE_IDTYPE]))
}

// Of a group's.
fn group_at(slot: &[u8]) -> Target
    requires { member_own ≤ length slot.now }
    ensures { Reads GroupOk group_own_bytes group_target slot.now result }
{
    let address = address_of(&slot[MEMBER_ADDRESS..MEMBER_TEXT]);
    Target::Group(group_flags_of(slot[FLAGS]), GroupAddress(address))
}

// Of an individual's.
fn individual_at(slot: &[u8]) -> Target
    requires { member_own ≤ length slot.now }
    ensures { Reads IndividualOk individual_own_bytes individual_target slot.now result }
{
    let address = address_of(&slot[MEMBER_ADDRESS..MEMBER_TEXT]);
    Target::Individual(individual_flags_of(slot[FLAGS]), IndividualAddress(address))
}

// What these bytes of a row's slot keep, by the row's kind; a text is no target.
fn target_of(row: Row, slot: &[u8]) -> Result<Target, NoValue>
    requires { own_of row ≤ length slot.now }
    ensures { TargetIs row slot.now result }
{
    match row {
        Row::Line(_) | Row::LineSlot(_) => Ok(line_at(slot)),
        Row::Group(_) | Row::GroupContact(_) => Ok(group_at(slot)),
        Row::Individual(_) | Row::IndividualContact(_) => Ok(individual_at(slot)),
        _ => Err(NoValue::Absent),
    }
}

// The row's slot in a store, where something stands in it.
pub(crate) fn filled_slot(row: Row, store: &[u8], limits: Limits) -> Option<Slot>
    requires { StoreOf limits store.now }
    ensures { Filled limits store.now row result }
{
    let Some(slot) = row_slot(row, limits) else {
        return None;
    };
    if is_zeros(&store[slot.start..slot.end]) {
        return None;
    }
    Some(slot)
}

// What stands behind a row, in a store of a set with these limits.
pub fn entry_in(row: Row, store: &[u8], limits: Limits) -> Result<Target, NoValue>
    ensures { Answers (entering limits row store.now) (told result) }
{
    if !is_store(store, limits) {
        return Err(NoValue::NotAStore);
    }
    let Some(slot) = filled_slot(row, store, limits) else {
        return Err(NoValue::Absent);
    };
    target_of(row, &store[slot.start..slot.text])
}
