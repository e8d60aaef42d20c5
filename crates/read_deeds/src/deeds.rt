// What an entry of a setting does to its table, and the entries that are still to be read.
ghost use Rattle.read_deeds.specs.ReadDeeds.{DoingIs, OpeningIs};

use read_fields::texts::TextPlace;
use writing::{Coding, Kind, Operation};

// An entry that is put: its key, the number that it is named by, whether it has no row, and where its text stands.
#[derive(Clone, Copy)]
pub struct Put {
    pub key: u64,
    pub name: u64,
    pub hidden: bool,
    pub text: TextPlace,
}

#[derive(Clone, Copy)]
pub enum Deed {
    Nothing,
    Clears(Kind),
    Puts(Kind, Put),
    Removes(Kind, u64),
}

// Of so many entries of a setting in all, so many are still to be read, from start on; of channels, which share bytes, all stand from start on.
#[derive(Clone, Copy)]
pub struct Left {
    pub kind: Kind,
    pub operation: Operation,
    pub hidden: bool,
    pub pabx: bool,
    pub coding: Coding,
    pub start: usize,
    pub total: usize,
    pub count: usize,
}

// A deed, and the entries that are left after it.
#[derive(Clone, Copy)]
pub struct Turn {
    pub deed: Deed,
    pub left: Left,
}

// No entry is left.
pub const NONE_LEFT: Left = Left {
    kind: Kind::Last,
    operation: Operation::Add,
    hidden: false,
    pabx: false,
    coding: Coding::Unicode16,
    start: 0,
    total: 0,
    count: 0,
};

// What an operation does with an entry.
pub(crate) fn doing(kind: Kind, operation: Operation, put: Put) -> Deed
    ensures { DoingIs kind operation put result }
{
    match operation {
        Operation::Add | Operation::Replace => Deed::Puts(kind, put),
        Operation::Delete => Deed::Removes(kind, put.key),
    }
}

// What it does before its entries.
pub(crate) fn opening(kind: Kind, operation: Operation) -> Deed
    ensures { OpeningIs kind operation result }
{
    match operation {
        Operation::Add | Operation::Delete => Deed::Nothing,
        Operation::Replace => Deed::Clears(kind),
    }
}
