// Joins two requests: both are checked, and their settings written behind one head.
ghost use Rattle.std.specs.Prelude.{◌≡◌, ◌++◌, ◌+◌, ◌≤◌, ◌<◌, length};
ghost use Rattle.lists.specs.Ladder.{Answers};
ghost use Rattle.writing.specs.Carrier.{coding_type};
ghost use Rattle.export_write.specs.Writers.{Wrote};
ghost use Rattle.joining.specs.Checking.{BothAre};
ghost use Rattle.joining.specs.Joins.{joined_bytes, joining};
ghost use Rattle.joining.specs.Told.{told, CanJoin};

use super::answers::Join;
use super::checks::{Head, check_request};
use export_write::fields::put_bytes;
use export_write::writers::FIRST;
use read_carrier::carrier::{EIGHT_BIT, MFID, START, UNICODE16};
use writing::Coding;

// OTAPVer 1 and MsgType 0.
const REQUEST: u8 = 0b0000_1000;

// The most settings that a request can count.
const MOST: u8 = 255;

fn coding_byte(coding: Coding) -> u8
    ensures { result ≡ coding_type coding }
{
    match coding {
        Coding::Unicode16 => UNICODE16,
        Coding::EightBit => EIGHT_BIT,
    }
}

// One head, and behind it the settings of the first request and then of the second.
fn write_joined(buffer: &mut [u8], head: Head, first: &[u8], second: &[u8]) -> usize
    requires { 8 + length first.now + length second.now ≤ length buffer.old }
    ensures { length first.now + length second.now < 65532 → Wrote (joined_bytes head.coding head.count (first.now ++ second.now)) 0 buffer.old buffer.new result }
{
    let coding = head.coding;
    let low = coding_byte(coding);
    let length = 4 + first.len() + second.len();
    let start = [
        START[0],
        START[1],
        (length / 256 % 256) as u8,
        (length % 256) as u8,
        MFID,
        low,
        REQUEST,
        head.count,
    ];
    let middle = put_bytes(buffer, 0, &start);
    let end = put_bytes(buffer, middle, first);
    put_bytes(buffer, end, second)
}

// Two requests that may be joined each, with what their heads say.
fn join_both(first: &[u8], second: &[u8], buffer: &mut [u8], most: usize, a: Head, b: Head) -> Join
    requires { (most ≤ length buffer.old) × (8 ≤ length first.now) × (length first.now ≤ most) × (8 ≤ length second.now) }
    ensures { BothAre most first.now second.now buffer.old buffer.new a b result }
{
    let coding = a.coding;
    let other = b.coding;
    if coding_byte(coding) != coding_byte(other) {
        return Join::Codings;
    }
    let count = a.count;
    let more = b.count;
    if MOST - count < more {
        return Join::TooMany;
    }
    if most - first.len() < second.len() - FIRST {
        return Join::TooLong;
    }
    let head = Head {
        count: count + more,
        coding,
    };
    Join::Written(write_joined(buffer, head, &first[FIRST..], &second[FIRST..]))
}

// Joins two requests in a set's message size, or says why not and leaves the buffer.
pub fn join_in(first: &[u8], second: &[u8], buffer: &mut [u8], most: usize) -> Join
    ensures { CanJoin most → Answers (joining most first.now second.now buffer.old) (record { answer = told result; buffer = buffer.new }) }
{
    if buffer.len() < most {
        return Join::Buffer;
    }
    let a = match check_request(first, most) {
        Ok(a) => a,
        Err(fault) => return Join::First(fault),
    };
    let b = match check_request(second, most) {
        Ok(b) => b,
        Err(fault) => return Join::Second(fault),
    };
    join_both(first, second, buffer, most, a, b)
}
