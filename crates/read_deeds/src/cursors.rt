// A place among deeds: in the entries of a setting, in the settings of a request, in the requests of a log.
ghost use Rattle.std.specs.Prelude.{◌≡◌};
ghost use Rattle.read_deeds.specs.Cursors.{AtSettings, NextSetting, CodingIs, NextRecord, NextDeed};

use super::beginnings::begin;
use super::deeds::{Deed, Left, NONE_LEFT};
use super::entries::next_entry;
use read_setting::reader::read_setting;
use writing::Coding;

// The entries left of a setting; where the next setting stands, or the next request where none is left, with how many are still counted and their coding.
#[derive(Clone, Copy)]
pub struct Cursor {
    pub left: Left,
    pub at: usize,
    pub settings: usize,
    pub coding: Coding,
}

// A deed, and where the next is.
#[derive(Clone, Copy)]
pub struct Moved {
    pub deed: Deed,
    pub cursor: Cursor,
}

// At the first of so many settings from a place on.
pub fn at_settings(at: usize, settings: usize, coding: Coding) -> Cursor
    ensures { AtSettings at settings coding result }
{
    Cursor {
        left: NONE_LEFT,
        at,
        settings,
        coding,
    }
}

// Nothing is done, and nothing passed.
fn stay(cursor: Cursor) -> Moved
    ensures { result.cursor ≡ cursor }
{
    Moved {
        deed: Deed::Nothing,
        cursor,
    }
}

// The next setting begins.
fn next_setting(m: &[u8], cursor: Cursor) -> Moved
    ensures { NextSetting m.now cursor result }
{
    if cursor.settings == 0 {
        return stay(cursor);
    }
    let settings = cursor.settings - 1;
    let coding = cursor.coding;
    let Ok((setting, next)) = read_setting(m, cursor.at, settings, coding) else {
        return stay(cursor);
    };
    let turn = begin(m, setting);
    let deed = turn.deed;
    let left = turn.left;
    Moved {
        deed,
        cursor: Cursor {
            left,
            at: next,
            settings,
            coding,
        },
    }
}

// How texts are coded, by the carrier's byte of the coding type.
fn coding_of(byte: u8) -> Coding
    ensures { CodingIs byte result }
{
    match byte % 16 {
        4 => Coding::EightBit,
        _ => Coding::Unicode16,
    }
}

// The next request of a log begins: two bytes of its length, six of the carrier, and two before its settings.
fn next_record(m: &[u8], cursor: Cursor) -> Moved
    ensures { NextRecord m.now cursor result }
{
    let at = cursor.at;
    if m.len() < 10 || m.len() - 10 < at {
        return stay(cursor);
    }
    Moved {
        deed: Deed::Nothing,
        cursor: at_settings(at + 10, m[at + 9] as usize, coding_of(m[at + 7])),
    }
}

// The next deed.
pub fn next_deed(m: &[u8], cursor: Cursor) -> Moved
    ensures { NextDeed m.now cursor result }
{
    let entries = cursor.left;
    if entries.count != 0 {
        let turn = next_entry(m, entries);
        let deed = turn.deed;
        let left = turn.left;
        let coding = cursor.coding;
        return Moved {
            deed,
            cursor: Cursor {
                left,
                at: cursor.at,
                settings: cursor.settings,
                coding,
            },
        };
    }
    if cursor.settings != 0 {
        return next_setting(m, cursor);
    }
    next_record(m, cursor)
}
