// The rules' table of the thirteen types of setting, for both codings of texts, which the reader asks before any field.
ghost use Rattle.std.specs.Prelude.{◌≡◌};
ghost use Rattle.writing.specs.declared.Kind.{Kind};
ghost use Rattle.settings.specs.TypeTable.{PlaceIs, row_of, BoundsAre, BoundsAt, OperationIs};

use writing::{Coding, Operation};

// The least and the most of DataLength, 65535 where the type has no most; operations is the largest code allowed, 0 where it has none.
#[derive(Clone, Copy)]
pub struct Bounds {
    pub type_byte: u8,
    pub least: u16,
    pub most: u16,
    pub operations: u8,
}

// Columns: the type; least and most under 0111; least and most under 0100; operations.
#[derive(Clone, Copy)]
struct TypeRow(u8, u16, u16, u16, u16, u8);

const ROWS: [TypeRow; 13] = [
    TypeRow(0xC8, 5, 65535, 5, 65535, 3),
    TypeRow(0xC9, 4, 65535, 4, 65535, 3),
    TypeRow(0xCA, 4, 65535, 4, 65535, 3),
    TypeRow(0xCB, 3, 6, 3, 6, 0),
    TypeRow(0xCC, 3, 65535, 3, 65535, 3),
    TypeRow(0xCD, 5, 5, 5, 5, 0),
    TypeRow(0xCE, 4, 65535, 4, 65535, 3),
    TypeRow(0xCF, 5, 5, 5, 5, 0),
    TypeRow(0xD0, 4, 65535, 4, 65535, 3),
    TypeRow(0xD1, 9, 41, 8, 24, 2),
    TypeRow(0xD2, 9, 41, 8, 24, 2),
    TypeRow(0xD3, 7, 48, 6, 31, 2),
    TypeRow(0xFF, 3, 13, 3, 13, 0),
];

// The place of a type byte among the rows.
fn place_of(b: u8) -> Option<usize>
    ensures { PlaceIs b result }
{
    match b {
        0xC8..=0xD3 => Some((b - 0xC8) as usize),
        0xFF => Some(12),
        _ => None,
    }
}

// What a row says under a coding.
fn under(row: TypeRow, coding: Coding) -> Bounds
    ensures { (k : Kind) → row ≡ row_of k → BoundsAre coding k result }
{
    match coding {
        Coding::Unicode16 => Bounds {
            type_byte: row.0,
            least: row.1,
            most: row.2,
            operations: row.5,
        },
        Coding::EightBit => Bounds {
            type_byte: row.0,
            least: row.3,
            most: row.4,
            operations: row.5,
        },
    }
}

// The row of a type byte under a coding.
pub fn bounds_of(b: u8, coding: Coding) -> Option<Bounds>
    ensures { BoundsAt coding b result }
{
    let i = place_of(b)?;
    Some(under(ROWS[i], coding))
}

// The operation of a code, where the row allows it.
pub fn operation_of(code: u64, largest: u8) -> Option<Operation>
    ensures { OperationIs code largest result }
{
    if (largest as u64) < code {
        return None;
    }
    match code {
        1 => Some(Operation::Add),
        2 => Some(Operation::Delete),
        3 => Some(Operation::Replace),
        _ => None,
    }
}
