// What is exported, part by part.
ghost use Rattle.export.specs.PartWriters.{Numbered};

#[derive(Clone, Copy)]
pub enum Part {
    Lines,
    Fixed,
    QuickTexts,
    Channels,
    StatusTexts,
    Groups,
    Individuals,
    GroupContacts,
    IndividualContacts,
    LineSlots,
}

// The parts in the order of their numbers.
const IN_ORDER: [Part; 10] = [
    Part::Lines,
    Part::Fixed,
    Part::QuickTexts,
    Part::Channels,
    Part::StatusTexts,
    Part::Groups,
    Part::Individuals,
    Part::GroupContacts,
    Part::IndividualContacts,
    Part::LineSlots,
];

// How many parts there are: their numbers are 1 to this.
pub const PARTS: u32 = 10;

// Why nothing was exported.
#[derive(Clone, Copy)]
pub enum NoExport {
    Buffer,
    NotAStore,
    NoPart,
}

// The part with a number.
impl TryFrom<u32> for Part {
    type Error = NoExport;

    ghost try_from_gives = { Numbered };

    fn try_from(number: u32) -> Result<Self, NoExport> {
        if number < 1 || PARTS < number {
            return Err(NoExport::NoPart);
        }
        Ok(IN_ORDER[(number - 1) as usize])
    }
}
