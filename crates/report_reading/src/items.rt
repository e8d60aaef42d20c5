// What a parameter of a report says. Texts, numbers and hash values stay as places in the message.
use plan::numbers::{GroupAddress, IndividualAddress};
use read_fields::hashes::HashPlace;
use read_fields::numbers::NumberPlace;
use read_fields::texts::TextPlace;
use writing::{
    GroupFlags, HomeNumbers, IndividualFlags, KeyFlags, KeyTarget, LineFlags, SystemCode,
};

// Contacts and lines have their index first, a channel its number, a status text its code and then its index.
#[derive(Clone, Copy)]
pub enum Item {
    Group(u8, GroupFlags, GroupAddress, TextPlace),
    Individual(u8, IndividualFlags, IndividualAddress, TextPlace),
    Line(u8, LineFlags, NumberPlace, TextPlace),
    Key(KeyTarget, KeyFlags),
    Quick(u8, TextPlace),
    Home(HomeNumbers),
    Channel(u16, u16),
    System(SystemCode),
    Status(u8, u8, TextPlace),
    Hash(HashPlace),
    NoHash,
    Unknown(u8),
}
