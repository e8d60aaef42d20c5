// A text of 16-bit units as UTF-8.
ghost use Rattle.std.specs.Prelude.{◌+◌, ◌≤◌, ◌<◌, ◌≡◌, ◌∷◌, length, take, drop, OnOk};
ghost use Rattle.std.specs.Io.KnownBytes.{Appends};
ghost use Rattle.printing.specs.Utf8 as utf;

use super::output::text;
use std::io;
use std::io::Write;

// A character, and the place behind it.
#[derive(Clone, Copy)]
struct Character {
    code: u32,
    next: usize,
}

// The bytes of a character: the first ones, as many as the length says.
#[derive(Clone, Copy)]
struct Utf8 {
    bytes: [u8; 4],
    length: usize,
}

fn wide(x: u8) -> u32
    ensures { (result ≡ x) × (result < 256) }
{
    x as u32
}

// The 16-bit unit at a place, high byte first.
fn unit(units: &[u8], at: usize) -> u32
    requires { at + 2 ≤ length units.now }
    ensures { (result < 65536) × (utf.units (drop at units.now) ≡ result ∷ utf.units (drop (at + 2) units.now)) }
{
    let low = at + 1;
    wide(units[at]) * 256 + wide(units[low])
}

// Whether two units are a surrogate pair.
fn is_pair(high: u32, low: u32) -> bool
    ensures { result ≡ utf.pair? high low }
{
    high / 1024 == 0x36 && low / 1024 == 0x37
}

// A unit that is no part of a pair: itself, or U+FFFD for a surrogate.
fn alone(unit: u32) -> u32
    requires { unit < 65536 }
    ensures { (result ≡ utf.alone unit) × (result < 0x110000) }
{
    if unit / 2048 == 0x1B { 0xFFFD } else { unit }
}

// The character of a pair.
fn joined(high: u32, low: u32) -> u32
    ensures { (result ≡ utf.joined high low) × (result < 0x110000) }
{
    0x10000 + high % 1024 * 1024 + low % 1024
}

// The character that starts at a place.
fn character_at(units: &[u8], at: usize) -> Character
    requires { at + 2 ≤ length units.now }
    ensures { (utf.characters (utf.units (drop at units.now)) ≡ result.code ∷ utf.characters (utf.units (drop result.next units.now))) × (result.code < 0x110000) × (at < result.next) × (result.next ≤ length units.now) }
{
    let first = unit(units, at);
    let next = at + 2;
    if units.len() - next < 2 {
        return Character {
            code: alone(first),
            next: next,
        };
    }
    let second = unit(units, next);
    if is_pair(first, second) {
        return Character {
            code: joined(first, second),
            next: next + 2,
        };
    }
    Character {
        code: alone(first),
        next: next,
    }
}

// The low six bits of a number, in a byte that follows a first one.
fn following(x: u32) -> u8
    ensures { result ≡ utf.following x }
{
    (0x80 + x % 64) as u8
}

// The bytes of a character.
fn encode(code: u32) -> Utf8
    requires { code < 0x110000 }
    ensures { (take result.length result.bytes ≡ utf.utf8 code) × (result.length ≤ length result.bytes) }
{
    if code < 0x80 {
        return Utf8 {
            bytes: [code as u8, 0, 0, 0],
            length: 1,
        };
    }
    if code < 0x800 {
        return Utf8 {
            bytes: [(0xC0 + code / 64) as u8, following(code), 0, 0],
            length: 2,
        };
    }
    if code < 0x10000 {
        let first = (0xE0 + code / 4096) as u8;
        return Utf8 {
            bytes: [first, following(code / 64), following(code), 0],
            length: 3,
        };
    }
    let first = (0xF0 + code / 262144) as u8;
    Utf8 {
        bytes: [
            first,
            following(code / 4096),
            following(code / 64),
            following(code),
        ],
        length: 4,
    }
}

fn show_character<W: Write>(out: &mut W, code: u32) -> io::Result<()>
    requires { code < 0x110000 }
    ensures { OnOk result (Appends (W.contents out.old) (W.contents out.new) (utf.utf8 code)) }
{
    let Utf8 { bytes, length } = encode(code);
    text(out, &bytes[0..length])
}

// Writes a text's characters one by one. A character takes one unit or two, so a `for` has nothing to count.
pub fn show_text<W: Write>(out: &mut W, units: &[u8]) -> io::Result<()>
    ensures { OnOk result (Appends (W.contents out.old) (W.contents out.new) (utf.shown units.now)) }
{
    let mut at = 0;
    while 2 <= units.len() - at {
        let c = character_at(units, at);
        show_character(out, c.code)?;
        at = c.next;
    }
    Ok(())
}
