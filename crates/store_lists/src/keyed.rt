// The step that group contacts and individual contacts share: they are kept by the address in their slots.
ghost use Rattle.std.specs.Prelude.{◌≡◌, false, ◌+◌, ◌*◌, ◌≤◌, length, take, drop};
ghost use Rattle.counted_lists.specs.Counted.{Counted, KeyDropped};
ghost use Rattle.tables.specs.Layout.{address_at, address_size, member_width};
ghost use Rattle.store_lists.specs.Lists.{AddressLooked, KeyedStepped};

use counted_lists::changes::{drop_keyed, put_keyed};
use counted_lists::counts::count;
use tables::places::{ADDRESS_BYTES, COUNT, MEMBER_ADDRESS, MEMBER_SLOT, MEMBER_TEXT};
use writing::Operation;

// Where the address of the first contact stands in a list.
const FIRST_ADDRESS: usize = COUNT + MEMBER_ADDRESS;

// Two bytes as a number, low byte first, which a processor may read at once.
fn little(a: u8, b: u8) -> usize
    ensures { result ≡ a + b * 256 }
{
    usize::from(u16::from_le_bytes([a, b]))
}

// Whether the bytes a, b, c are x, y, z: the last two, in which addresses that are close differ, are compared first.
fn same_address(a: u8, b: u8, c: u8, x: u8, y: u8, z: u8) -> bool
    ensures { result ≡ false → a ≡ x → b ≡ y → c ≡ z → ⊥ }
{
    if little(b, c) != little(y, z) {
        return false;
    }
    a == x
}

// Whether a contact has the address x, y, z: none has it where this says no.
fn has_address(list: &[u8], x: u8, y: u8, z: u8) -> bool
    ensures { AddressLooked x y z list.now result }
{
    if list.len() < 2 {
        return true;
    }
    let held = count(list);
    if (list.len() - 2) / MEMBER_SLOT < held {
        return true;
    }
    for i in 0..held {
        let at = i * MEMBER_SLOT + FIRST_ADDRESS;
        if same_address(list[at], list[at + 1], list[at + 2], x, y, z) {
            return true;
        }
    }
    false
}

// Takes the contact with a slot's address, its bytes 1 to 3, out; where there is none, nothing is written.
fn drop_contact(list: &mut [u8], slot: &[u8])
    requires { 4 ≤ length slot.now }
    ensures { KeyDropped member_width address_at (take address_size (drop address_at slot.now)) list.old list.new }
{
    if has_address(list, slot[1], slot[2], slot[3]) {
        drop_keyed(
            list,
            MEMBER_SLOT,
            MEMBER_ADDRESS,
            &slot[MEMBER_ADDRESS..MEMBER_TEXT],
        );
    }
}

// Applies an operation to the contact of a slot: was there room?
pub(crate) fn step_contact(list: &mut [u8], operation: Operation, slot: &[u8]) -> bool
    requires { 4 ≤ length slot.now }
    ensures { KeyedStepped (Counted member_width) operation member_width address_at address_size slot.now list.old list.new result }
{
    match operation {
        Operation::Add => put_keyed(list, MEMBER_SLOT, MEMBER_ADDRESS, ADDRESS_BYTES, slot),
        Operation::Delete => {
            drop_contact(list, slot);
            true
        }
        Operation::Replace => put_keyed(list, MEMBER_SLOT, MEMBER_ADDRESS, ADDRESS_BYTES, slot),
    }
}
