// Which row of the screen is asked for, and why none is shown.
ghost use Rattle.std.specs.Prelude.{◌≡◌};
ghost use Rattle.screen.specs.Rows.{row_named};

// A table and a place in it: a line's or a contact's position from 0, a quick text's index, a status text's code, a slot's index.
#[derive(Clone, Copy)]
pub enum Row {
    Line(usize),
    QuickText(usize),
    StatusText(usize),
    Group(usize),
    Individual(usize),
    GroupContact(usize),
    IndividualContact(usize),
    LineSlot(usize),
    NoTable,
}

// Why no row is shown, with the number of document 01.
#[derive(Clone, Copy)]
pub enum Refusal {
    ScratchSize = 15,
    NotAStore = 11,
    Absent = 17,
}

// The row of plain numbers: tables 1 to 8 in this order, any other is no table.
pub fn row_of(table: u32, place: u32) -> Row
    ensures { result ≡ row_named table place }
{
    let n = place as usize;
    match table {
        1 => Row::Line(n),
        2 => Row::QuickText(n),
        3 => Row::StatusText(n),
        4 => Row::Group(n),
        5 => Row::Individual(n),
        6 => Row::GroupContact(n),
        7 => Row::IndividualContact(n),
        8 => Row::LineSlot(n),
        _ => Row::NoTable,
    }
}
