// A parameter at a place, by its type byte.
ghost use Rattle.report_reading.specs.Readers.{FailedAt, AsksIs, TypeAt};
ghost use Rattle.report_reading.specs.Reading.{ReadAt};

use super::contacts::{read_group, read_individual, read_line};
use super::fixed::{read_channel, read_hashes, read_home, read_key, read_system};
use super::items::Item;
use super::texts::{read_quick, read_status};
use read_fields::bytes::{number, remaining};

// Failed, by reason 3: the type is not supported.
const FAILED: u64 = 0x83;

// Whether an error stands there.
fn failed(m: &[u8], p: usize) -> bool
    ensures { FailedAt m.now p result }
{
    if remaining(m, p) < 1 {
        return false;
    }
    number(m, p, 1) == FAILED
}

// Whether a byte asks for a type, so that no error answers it.
fn asks(b: u8) -> bool
    ensures { AsksIs b result }
{
    match b {
        0xC8..=0xD0 => true,
        0xFF => true,
        _ => false,
    }
}

// The fields behind a type byte.
fn read_fields_of(m: &[u8], p: usize, b: u8) -> Option<(Item, usize)>
    ensures { TypeAt b m.now p result }
{
    match b {
        0x88 => read_group(m, p),
        0x89 => read_individual(m, p),
        0x8A => read_line(m, p),
        0x8B => read_key(m, p),
        0x8C => read_quick(m, p),
        0x8D => read_home(m, p),
        0x8E => read_channel(m, p),
        0x8F => read_system(m, p),
        0x90 => read_status(m, p),
        0xBF => read_hashes(m, p),
        _ => None,
    }
}

// The parameter in range at a place, and the place behind it.
pub fn read_item(m: &[u8], at: usize) -> Option<(Item, usize)>
    ensures { ReadAt m.now at result }
{
    if remaining(m, at) < 1 {
        return None;
    }
    let b = (number(m, at, 1) % 256) as u8;
    let p = at + 1;
    if failed(m, p) {
        if asks(b) {
            return None;
        }
        return Some((Item::Unknown(b), p + 1));
    }
    read_fields_of(m, p, b)
}
