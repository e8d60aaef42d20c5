// The parameters of one message, and what stands before them.
ghost use Rattle.std.specs.Prelude.{◌≡◌, ◌≤◌, ◌<◌, length};
ghost use Rattle.tables.specs.Forms.{Roomy};
ghost use Rattle.reports.specs.TableSlots.{slot_count};
ghost use Rattle.reporting.specs.Plans.{Ranked};
ghost use Rattle.reporting.specs.Written.{PlacePut, TablePut, TypePut, ItemsPut, Headed};

use super::asking::asked_by;
use super::planning::Walk;
use super::walk::{places_of, write_place};
use export_write::fields::put_bytes;
use read_carrier::carrier::{MFID, START, UNICODE16};
use report_write::items::ITEM;
use reports::Asked;
use slots::bytes::copy;
use tables::limits::Limits;

// OTAPVer 1 and MsgType 3.
const REPORT: u8 = 0b0000_1011;

// The second byte of an error: failed, type not supported.
const NOT_SUPPORTED: u8 = 0x83;

// Where a report's parameters start, behind its head.
pub(crate) const FIRST: usize = 10;

// The byte behind what was written, a place of a table, before which so many entries stand, and how many parameters are left to write.
#[derive(Clone, Copy)]
pub(crate) struct Spot {
    pub end: usize,
    pub place: usize,
    pub rank: usize,
    pub left: usize,
}

// The parameter in a place, where there is one.
fn put_place(buffer: &mut [u8], spot: Spot, asked: Asked, work: &[u8], limits: Limits) -> Spot
    requires { Roomy limits × (length work.now ≡ limits.size) × (spot.place < slot_count limits asked) × (spot.rank ≤ spot.place) × (0 < spot.left) }
    ensures { PlacePut limits asked work.now spot buffer.old buffer.new result }
{
    let place = spot.place;
    let rank = spot.rank;
    let left = spot.left;
    let end = spot.end;
    let mut scratch = [0u8; ITEM];
    let size = write_place(&mut scratch, asked, work, limits, place, rank);
    if size == 0 {
        return Spot {
            end,
            place: place + 1,
            rank,
            left,
        };
    }
    let next = put_bytes(buffer, end, &scratch[0..size]);
    Spot {
        end: next,
        place: place + 1,
        rank: rank + 1,
        left: left - 1,
    }
}

// The parameters of a table from a place on, as long as some are left to write.
fn put_table(buffer: &mut [u8], spot: Spot, asked: Asked, work: &[u8], limits: Limits) -> Spot
    requires { Roomy limits × (length work.now ≡ limits.size) × (spot.rank ≤ spot.place) }
    ensures { TablePut limits asked work.now spot buffer.old buffer.new result }
{
    let places = places_of(asked, limits);
    let mut s = spot;
    // The spot moves from place to place, so that no index is counted here.
    while s.place < places {
        if s.left == 0 {
            return Spot {
                end: s.end,
                place: 0,
                rank: 0,
                left: 0,
            };
        }
        s = put_place(buffer, s, asked, work, limits);
    }
    Spot {
        end: s.end,
        place: 0,
        rank: 0,
        left: s.left,
    }
}

// The parameters of the type that a byte asks for; an unknown one is its error, and the last.
fn put_type(buffer: &mut [u8], spot: Spot, byte: u8, work: &[u8], limits: Limits) -> Spot
    requires { Roomy limits × (length work.now ≡ limits.size) × (spot.rank ≤ spot.place) × (0 < spot.left) }
    ensures { TypePut limits byte work.now spot buffer.old buffer.new result }
{
    let Some(asked) = asked_by(byte) else {
        let error = [byte, NOT_SUPPORTED];
        let end = put_bytes(buffer, spot.end, &error);
        // An error ends the report.
        let left = 0;
        return Spot {
            end,
            place: 0,
            rank: 0,
            left,
        };
    };
    put_table(buffer, spot, asked, work, limits)
}

// The parameters of the planned message, behind a report's head: the byte behind them.
pub(crate) fn put_items(
    buffer: &mut [u8],
    types: &[u8],
    work: &[u8],
    limits: Limits,
    plan: Walk,
) -> usize
    requires { Roomy limits × (length work.now ≡ limits.size) × Ranked plan.from }
    ensures { ItemsPut limits types.now work.now plan buffer.old buffer.new result }
{
    let from = plan.from;
    let mut spot = Spot {
        end: FIRST,
        place: from.place,
        rank: from.rank,
        left: plan.own,
    };
    for ask in from.ask..types.len() {
        if spot.left == 0 {
            return spot.end;
        }
        spot = put_type(buffer, spot, types[ask], work, limits);
    }
    spot.end
}

// The carrier and the first data bytes of the message whose parameters were written up to end: its length.
pub(crate) fn start_report(buffer: &mut [u8], total: u8, index: u8, count: u8, end: usize) -> usize
    ensures { (10 ≤ end) × (end ≤ length buffer.old) × (end < 65540) → Headed total index count end buffer.old buffer.new result }
{
    if end < FIRST {
        return 0;
    }
    if buffer.len() < end {
        return 0;
    }
    let length = end - 4;
    let start = [
        START[0],
        START[1],
        (length / 256 % 256) as u8,
        (length % 256) as u8,
        MFID,
        UNICODE16,
        REPORT,
        total,
        index,
        count,
    ];
    copy(&mut buffer[0..FIRST], &start);
    end
}
