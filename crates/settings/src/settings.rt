// A setting once read: a kind with its operation inside it; texts, numbers and entries stay as places in the message.
use plan::numbers::{GroupAddress, IndividualAddress};
use read_fields::entries::ContactPlace;
use read_fields::hashes::HashPlace;
use read_fields::texts::TextPlace;
use writing::{
    Coding, GroupFlags, HomeNumbers, IndividualFlags, KeyFlags, KeyTarget, LastFlags, LineFlags,
    Operation, SystemCode,
};

// So many entries, from start up to next, and the coding that they were read under.
#[derive(Clone, Copy)]
pub struct Entries {
    pub start: usize,
    pub count: usize,
    pub next: usize,
    pub coding: Coding,
}

#[derive(Clone, Copy)]
pub struct GroupPlace {
    pub index: u8,
    pub address: GroupAddress,
    pub text: TextPlace,
}

#[derive(Clone, Copy)]
pub struct IndividualPlace {
    pub index: u8,
    pub address: IndividualAddress,
    pub text: TextPlace,
}

#[derive(Clone, Copy)]
pub struct LinePlace {
    pub index: u8,
    pub contact: ContactPlace,
}

#[derive(Clone, Copy)]
pub enum Setting {
    GroupContacts(Operation, GroupFlags, Entries),
    IndividualContacts(Operation, IndividualFlags, Entries),
    Lines(Operation, LineFlags, Entries),
    Key(KeyTarget, KeyFlags),
    QuickTexts(Operation, Entries),
    Home(HomeNumbers),
    Channels(Operation, Entries),
    System(SystemCode),
    StatusTexts(Operation, Entries),
    Group(Operation, GroupFlags, GroupPlace),
    Individual(Operation, IndividualFlags, IndividualPlace),
    LineSlot(Operation, LineFlags, LinePlace),
    Last(LastFlags, HashPlace),
}
