// Heads of slots and of the emergency key: a byte of flags, and an address.
ghost use Rattle.std.specs.Prelude.{◌≡◌, ◌∷◌, ◌≤◌, ◌<◌, length};
ghost use Rattle.slots.specs.Slots.{u24};
ghost use Rattle.writing.specs.Writing.{bit};
ghost use Rattle.tables.specs.Layout.{group_flags, individual_flags};

use writing::{GroupFlags, IndividualFlags};

// A flag as a number.
pub fn bit_of(b: bool) -> u8
    ensures { (result ≡ bit b) × (result ≤ 1) }
{
    u8::from(b)
}

pub fn group_flag_byte(flags: GroupFlags) -> u8
    ensures { flags.attribute < 4 → flags.priority < 4 → result ≡ group_flags flags }
{
    flags.attribute % 4 * 64
        + bit_of(flags.broadcast) * 32
        + bit_of(flags.encryption) * 16
        + bit_of(flags.ovcm) * 8
        + bit_of(flags.emergency) * 4
        + flags.priority % 4
}

pub fn individual_flag_byte(flags: IndividualFlags) -> u8
    ensures { flags.priority < 4 → result ≡ individual_flags flags }
{
    bit_of(flags.encryption) * 8 + bit_of(flags.emergency) * 4 + flags.priority % 4
}

// The flags, and the address as three bytes, highest first.
pub fn head_of(flags: u8, address: u32) -> [u8; 4]
    ensures { (length result ≡ 4) × (address < 16777216 → result ≡ flags ∷ u24 address) }
{
    [
        flags,
        (address / 65536 % 256) as u8,
        (address / 256 % 256) as u8,
        (address % 256) as u8,
    ]
}
