// Where the heads of entries stand in a store whose texts share one area, and how wide a head's slot is: docs/STORE.md.
use super::places::{
    CONTACT_PLACES, COUNT, LINE_TEXT, MEMBER_TEXT, QUICK, QUICK_PLACES, SLOT_PLACES, STATUS_PLACES,
    STATUS_TEXT,
};

// What a slot keeps beside the text, and a byte for the number of units.
pub const QUICK_HEAD: usize = 1;

pub const STATUS_HEAD: usize = STATUS_TEXT + 1;

pub const MEMBER_HEAD: usize = MEMBER_TEXT + 1;

pub const LINE_HEAD: usize = LINE_TEXT + 1;

// Where the heads start: the regions before the quick texts stand where they do in the other form; behind the channels come the lines.
pub const STATUS_HEADS: usize = QUICK + QUICK_PLACES * QUICK_HEAD;

pub const GROUP_HEADS: usize = STATUS_HEADS + STATUS_PLACES * STATUS_HEAD;

pub const INDIVIDUAL_HEADS: usize = GROUP_HEADS + SLOT_PLACES * MEMBER_HEAD;

pub const LINE_SLOT_HEADS: usize = INDIVIDUAL_HEADS + SLOT_PLACES * MEMBER_HEAD;

pub const GROUP_CONTACT_HEADS: usize = LINE_SLOT_HEADS + SLOT_PLACES * LINE_HEAD;

pub const INDIVIDUAL_CONTACT_HEADS: usize = GROUP_CONTACT_HEADS
    + (COUNT + CONTACT_PLACES * MEMBER_HEAD);

pub const SHARED_CHANNELS: usize = INDIVIDUAL_CONTACT_HEADS
    + (COUNT + CONTACT_PLACES * MEMBER_HEAD);
