// Group and individual slots: a place for each index of 4 bits.
ghost use Rattle.store_places.specs.Changes.{MemberSet, GroupApplied, IndividualApplied};

use super::overwriting::set_place;
use read_fields::texts::TextPlace;
use settings::settings::{GroupPlace, IndividualPlace};
use tables::heads::{group_flag_byte, head_of, individual_flag_byte};
use tables::places::MEMBER_SLOT;
use writing::{GroupFlags, IndividualFlags, Operation};

// Sets the slot of an index to a byte of flags, an address and a text, or wipes it in a delete.
fn set_member(
    region: &mut [u8],
    m: &[u8],
    operation: Operation,
    index: u8,
    flags: u8,
    address: u32,
    text: TextPlace,
)
    ensures { MemberSet m.now operation index flags address text region.old region.new }
{
    let head = head_of(flags, address);
    set_place(region, MEMBER_SLOT, index, &head, m, operation, text, false);
}

// No plainer as one function: the two kinds have flags and addresses of two types, and set_member has what they share.
pub fn apply_group(
    region: &mut [u8],
    m: &[u8],
    operation: Operation,
    flags: GroupFlags,
    place: GroupPlace,
)
    ensures { GroupApplied m.now operation flags place region.old region.new }
{
    let byte = group_flag_byte(flags);
    let address = place.address.0;
    set_member(region, m, operation, place.index, byte, address, place.text);
}

pub fn apply_individual(
    region: &mut [u8],
    m: &[u8],
    operation: Operation,
    flags: IndividualFlags,
    place: IndividualPlace,
)
    ensures { IndividualApplied m.now operation flags place region.old region.new }
{
    let byte = individual_flag_byte(flags);
    let address = place.address.0;
    set_member(region, m, operation, place.index, byte, address, place.text);
}
