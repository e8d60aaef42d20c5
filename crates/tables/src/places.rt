// Where the regions of a store stand, how wide a slot is, and where things stand in it: docs/STORE.md.

// The widths of slots.
pub const QUICK_SLOT: usize = 46;

pub const STATUS_SLOT: usize = 33;

pub const MEMBER_SLOT: usize = 36;

pub const CHANNEL_SLOT: usize = 2;

pub const LINE_SLOT: usize = 52;

// How many places the tables of the standard's own size have.
pub const QUICK_PLACES: usize = 64;

pub const STATUS_PLACES: usize = 96;

pub const SLOT_PLACES: usize = 16;

pub const CONTACT_PLACES: usize = 64;

// How many bytes these tables have.
pub const QUICK_SIZE: usize = QUICK_PLACES * QUICK_SLOT;

pub const STATUS_SIZE: usize = STATUS_PLACES * STATUS_SLOT;

pub const MEMBER_SIZE: usize = SLOT_PLACES * MEMBER_SLOT;

pub const LINE_SLOTS_SIZE: usize = SLOT_PLACES * LINE_SLOT;

pub const CONTACTS_SIZE: usize = COUNT + CONTACT_PLACES * MEMBER_SLOT;

// Where the regions start, the hash first; behind the channels come the lines.
pub const HASH: usize = 0;

pub const KEY: usize = 11;

pub const HOME: usize = KEY + 4;

pub const SYSTEM: usize = HOME + 4;

pub const QUICK: usize = SYSTEM + 3;

pub const STATUS: usize = QUICK + QUICK_SIZE;

pub const GROUPS: usize = STATUS + STATUS_SIZE;

pub const INDIVIDUALS: usize = GROUPS + MEMBER_SIZE;

pub const LINE_SLOTS: usize = INDIVIDUALS + MEMBER_SIZE;

pub const GROUP_CONTACTS: usize = LINE_SLOTS + LINE_SLOTS_SIZE;

pub const INDIVIDUAL_CONTACTS: usize = GROUP_CONTACTS + CONTACTS_SIZE;

pub const CHANNELS: usize = INDIVIDUAL_CONTACTS + CONTACTS_SIZE;

// The region of a list begins with its count; and the most that a count can say.
pub const COUNT: usize = 2;

pub const COUNTED: usize = 65535;

// The most places whose positions, plus one, a byte of an order can say.
pub const ORDERED: usize = 255;

// In a slot: a line's key, which is its IDtype and its digits, a member's address, and the text, which stands last.
pub const LINE_KEY: usize = 1;

pub const KEY_BYTES: usize = 19;

pub const LINE_IDTYPE: usize = LINE_KEY;

pub const LINE_DIGITS: usize = LINE_IDTYPE + 1;

pub const LINE_TEXT: usize = LINE_KEY + KEY_BYTES;

pub const STATUS_TEXT: usize = 1;

pub const MEMBER_ADDRESS: usize = 1;

pub const ADDRESS_BYTES: usize = 3;

pub const MEMBER_TEXT: usize = MEMBER_ADDRESS + ADDRESS_BYTES;
