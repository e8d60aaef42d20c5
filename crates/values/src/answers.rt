// What the calls answer.
use plan::numbers::{GroupAddress, IndividualAddress};
use writing::{GroupFlags, IndividualFlags, KeyFlags, KeyTarget, LineFlags};

// What stands behind a row, by kind; a line's digits are asked for apart.
#[derive(Clone, Copy)]
pub enum Target {
    Line(LineFlags),
    Group(GroupFlags, GroupAddress),
    Individual(IndividualFlags, IndividualAddress),
}

// Where the emergency key calls, and how.
#[derive(Clone, Copy)]
pub struct EmergencyKey {
    pub target: KeyTarget,
    pub flags: KeyFlags,
}

// Why a call has no value: C's numbers.
#[derive(Clone, Copy, PartialEq, Eq)]
pub enum NoValue {
    NotAStore = 11,
    BufferSize = 15,
    Absent = 17,
}
