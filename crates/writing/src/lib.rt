// What the thirteen settings and a reply say, as code and definitions share it: operations, flags, fixed contents, results. No code reads or writes here.
#![tactic(auto)]

use plan::numbers::{GroupAddress, IndividualAddress};

// The thirteen types of setting, in the order of their type bytes.
#[derive(Clone, Copy)]
pub enum Kind {
    GroupContacts,
    IndividualContacts,
    Lines,
    Key,
    QuickTexts,
    Home,
    Channels,
    System,
    StatusTexts,
    Group,
    Individual,
    LineSlot,
    Last,
}

#[derive(Clone, Copy)]
pub enum Operation {
    Add,
    Delete,
    Replace,
}

// Which operations a type of setting has.
#[derive(Clone, Copy)]
pub enum Operations {
    NoOperation,
    AnyOperation,
    AddOrDelete,
}

// What a reply says of its message: CfgResult.
#[derive(Clone, Copy)]
pub enum CfgResult {
    Taken,
    OtherVersion,
    NoRoom,
    UnknownType,
    BadField,
    NoMatch,
}

// How texts are coded, by the carrier's coding type: 0111 or 0100.
#[derive(Clone, Copy)]
pub enum Coding {
    Unicode16,
    EightBit,
}

// Of all line contacts of one setting, or of a line slot.
#[derive(Clone, Copy)]
pub struct LineFlags {
    pub encryption: bool,
    pub emergency: bool,
    pub priority: u8,
    pub pabx: bool,
}

// Where the emergency key calls: the current place, with its group bit, or an address of the kind that the group bit says.
#[derive(Clone, Copy)]
pub enum KeyTarget {
    Current(bool),
    ToGroup(GroupAddress),
    ToIndividual(IndividualAddress),
}

#[derive(Clone, Copy)]
pub struct KeyFlags {
    pub voice: bool,
    pub status: bool,
    pub siren: bool,
}

#[derive(Clone, Copy)]
pub struct HomeNumbers {
    pub nzi: u16,
    pub np: u16,
}

#[derive(Clone, Copy)]
pub struct SystemCode {
    pub lai: u16,
    pub la: u8,
    pub roaming: u8,
    pub par: bool,
}

#[derive(Clone, Copy)]
pub struct GroupFlags {
    pub attribute: u8,
    pub broadcast: bool,
    pub encryption: bool,
    pub ovcm: bool,
    pub emergency: bool,
    pub priority: u8,
}

#[derive(Clone, Copy)]
pub struct IndividualFlags {
    pub encryption: bool,
    pub emergency: bool,
    pub priority: u8,
}

#[derive(Clone, Copy)]
pub struct LastFlags {
    pub reboot: bool,
    pub reply: bool,
}
