// Whether bytes are an area: every request in it is taken in its turn, from a fresh set.
ghost use Rattle.plain_log.specs.Checking.{MovedIs, RecordIs, AreaIs};

use super::areas::{AREA, USED, number_at, used_of};
use plain_judge::judge::judge_settings;
use plain_judge::trying::WEIGHTS;
use plain_look::known::DEEDS;
use read_carrier::carrier::{Message, read_message};
use read_fields::hashes::HashPlace;
use requests::run::Request;
use slots::bytes::is_clear;
use tables::limits::HANDHELD;

// How long the requests of an area are, how many deeds they have, and where the hash of the last stands.
#[derive(Clone, Copy)]
pub struct Area {
    pub used: usize,
    pub deeds: usize,
    pub hash: HashPlace,
}

// A request that is taken in its turn: the place after it, how many deeds it has, and where its hash stands.
#[derive(Clone, Copy)]
pub(crate) struct Record {
    pub next: usize,
    pub deeds: usize,
    pub hash: HashPlace,
}

// The place in all bytes of a hash in those from a start on; one that is said to stand past the end has no bytes.
fn moved(hash: HashPlace, start: usize, end: usize) -> HashPlace
    ensures { MovedIs hash start end result }
{
    let code = hash.code;
    if end < start || end - start < hash.start {
        return HashPlace { code, start: 0 };
    }
    HashPlace {
        code,
        start: start + hash.start,
    }
}

// The request at a place before the end of all, after so many deeds; none where none is taken there.
fn check_record(
    area: &[u8],
    at: usize,
    end: usize,
    deeds: usize,
    weights: &mut [usize],
) -> Option<Record>
    ensures { RecordIs area.now at end deeds weights.old weights.new result }
{
    if area.len() < end {
        return None;
    }
    if end < 2 {
        return None;
    }
    if end - 2 < at {
        return None;
    }
    let start = at + 2;
    let size = number_at(area, at);
    if end - start < size {
        return None;
    }
    let stop = start + size;
    let m = &area[start..stop];
    let message = read_message(m, HANDHELD.message);
    let Message::Request(count, from, coding) = message else {
        return None;
    };
    let request = Request {
        at: from,
        count,
        coding,
    };
    match judge_settings(area, deeds, m, request, weights) {
        Ok((item, passed)) => Some(Record {
            next: stop,
            deeds: passed,
            hash: moved(item.hash, start, end),
        }),
        Err(_) => None,
    }
}

// Reads an area from its first request on, with numbers that are all 0 and become those of its tables; none where it is not one.
pub fn check_area(area: &[u8], weights: &mut [usize]) -> Option<Area>
    ensures { AreaIs area.now weights.old weights.new result }
{
    if weights.len() != WEIGHTS {
        return None;
    }
    let used = used_of(area)?;
    if AREA - USED < used {
        return None;
    }
    let end = USED + used;
    if !is_clear(&area[end..]) {
        return None;
    }
    let mut at = USED;
    let mut deeds = 0;
    let mut hash = HashPlace { code: 0, start: 0 };
    while at < end {
        if DEEDS <= deeds {
            return None;
        }
        let record = check_record(area, at, end, deeds, weights)?;
        if record.next <= at {
            return None;
        }
        if DEEDS <= record.deeds {
            return None;
        }
        at = record.next;
        deeds = deeds + record.deeds + 1;
        hash = record.hash;
    }
    Some(Area { used, deeds, hash })
}
