// What a message is, up to the settings of a request or the hash of a result query.
ghost use Rattle.std.specs.Prelude.{ℕ, drop};
ghost use Rattle.writing.specs.Carrier.{Opens, InSize};
ghost use Rattle.read_carrier.specs.Message.{StartsWith, LengthIs, CarrierIs, OpenedIs, MessageIs};

use read_fields::bytes::{number, remaining};
use read_fields::hashes::{HashPlace, read_hash};
use writing::Coding;

// The fixed start bytes: protocol version and service.
pub const START: [u8; 2] = *b"\x02\x02";

// The manufacturer that the carrier names.
pub const MFID: u8 = 0x08;

// The coding type of 16-bit Unicode.
pub const UNICODE16: u8 = 0b0111;

// The coding type of eight-bit characters.
pub const EIGHT_BIT: u8 = 0b0100;

// The OTAPVer that is taken.
pub const VERSION: u8 = 1;

// What a message that is carried opens with.
#[derive(Clone, Copy)]
pub struct Opening {
    pub version: u8,
    pub kind: u8,
    pub coding: u8,
}

// Why a message doesn't open: it is out of size, or nothing is carried.
#[derive(Clone, Copy)]
pub enum Unopened {
    Size,
    Carrier,
}

// A message is out of size, not carried, of another type or version, or a request or a result query, well formed or not.
// A request has the count of its settings, the place where they start and how their texts are coded, a query the place of its hash.
#[derive(Clone, Copy)]
pub enum Message {
    Size,
    Carrier,
    Type,
    Version,
    NoRequest,
    Request(u8, usize, Coding),
    NoQuery,
    Query(HashPlace),
}

// The start bytes, compared as they stand.
fn starts(m: &[u8]) -> bool
    ensures { StartsWith m.now result }
{
    m.starts_with(&START)
}

// The length counts everything after itself; 0 means that it isn't stated.
fn states(stated: u64, after: u64) -> bool
    ensures { LengthIs stated after result }
{
    stated == 0 || stated == after
}

// The coding type under which data bytes are carried. Reserved bits are ignored.
fn read_carrier(m: &[u8]) -> Option<u8>
    ensures { CarrierIs m.now result }
{
    if m.len() < 6 {
        return None;
    }
    if !starts(m) {
        return None;
    }
    let head = number(m, 2, 4);
    if !states(head / 65536, (m.len() - 4) as u64) {
        return None;
    }
    if head / 256 % 256 != MFID as u64 {
        return None;
    }
    Some((head % 16) as u8)
}

// What every message opens with, whatever its type, where at most so many bytes are taken.
pub fn open_message(m: &[u8], most: usize) -> Result<Opening, Unopened>
    ensures { OpenedIs most m.now result }
{
    if m.len() < 7 || most < m.len() {
        return Err(Unopened::Size);
    }
    let Some(coding) = read_carrier(m) else {
        return Err(Unopened::Carrier);
    };
    let first = number(m, 6, 1);
    let version = (first / 8 % 32) as u8;
    let kind = (first % 8) as u8;
    Ok(Opening {
        version,
        kind,
        coding,
    })
}

// A request, or none, where the first data byte says one.
fn read_request(m: &[u8], coding: u8) -> Message
    requires { Opens 1 0 coding (drop 6 m.now) m.now }
    ensures { (most : ℕ) → InSize most m.now → MessageIs most m.now result }
{
    if remaining(m, 7) < 1 {
        return Message::NoRequest;
    }
    let count = (number(m, 7, 1) % 256) as u8;
    if count == 0 {
        return Message::NoRequest;
    }
    match coding {
        UNICODE16 => Message::Request(count, 8, Coding::Unicode16),
        EIGHT_BIT => Message::Request(count, 8, Coding::EightBit),
        _ => Message::NoRequest,
    }
}

// A result query, or none, where the first data byte says one.
fn read_query(m: &[u8]) -> Message
    requires { (coding : ℕ) × Opens 1 5 coding (drop 6 m.now) m.now }
    ensures { (most : ℕ) → InSize most m.now → MessageIs most m.now result }
{
    if remaining(m, 7) < 1 {
        return Message::NoQuery;
    }
    let code = (number(m, 7, 1) % 64) as u8;
    let Some((place, next)) = read_hash(m, 8, code) else {
        return Message::NoQuery;
    };
    if next != m.len() {
        return Message::NoQuery;
    }
    Message::Query(place)
}

// The message, where at most so many bytes are taken.
pub fn read_message(m: &[u8], most: usize) -> Message
    ensures { MessageIs most m.now result }
{
    match open_message(m, most) {
        Err(Unopened::Size) => Message::Size,
        Err(Unopened::Carrier) => Message::Carrier,
        Ok(opened) => match opened.kind {
            0 | 5 if opened.version != VERSION => Message::Version,
            0 => read_request(m, opened.coding),
            5 => read_query(m),
            _ => Message::Type,
        },
    }
}
