// A message of a report: its total, its index and how many parameters it has.
ghost use Rattle.std.specs.Prelude.{ℕ, ◌≡◌, drop};
ghost use Rattle.writing.specs.Carrier.{Opens, InSize};
ghost use Rattle.report_reading.specs.Readers.{error?, Misplaced, HeadRefused, WalkIs};
ghost use Rattle.report_reading.specs.Reading.{ReadAs};

use super::items::Item;
use super::types::read_item;
use read_carrier::carrier::{UNICODE16, Unopened, VERSION, open_message};
use read_fields::bytes::{number, remaining};

// Why no report was read, or its total, its index and how many parameters it has.
#[derive(Clone, Copy)]
pub enum ReportRead {
    Size,
    Carrier,
    OtherType,
    Version,
    NoReport,
    Report(u8, u8, u8),
}

// The MsgType of a report.
const REPORT: u8 = 3;

// The place of the first parameter.
const FIRST: usize = 10;

fn is_error(item: Item) -> bool
    ensures { result ≡ error? item }
{
    matches!(item, Item::Unknown(_))
}

// Whether an error stands before the last parameter of the last message; left counts the parameter itself.
fn misplaced(error: bool, left: u8, last: bool) -> bool
    ensures { Misplaced error left last result }
{
    error && (!last || left != 1)
}

// Whether total, index and count are not those of a report: none may have no parameter but the only one.
fn head_refused(total: u8, index: u8, count: u8) -> bool
    ensures { HeadRefused total index count result }
{
    index < 1 || total < index || (count < 1 && 1 < total)
}

// Whether as many parameters as were counted stand up to the message's end, and an error only where it may.
fn walk(m: &[u8], count: u8, last: bool) -> bool
    ensures { WalkIs m.now count last result }
{
    let mut p = FIRST;
    for read in 0..count {
        let left = count - read;
        let Some((item, next)) = read_item(m, p) else {
            return false;
        };
        if misplaced(is_error(item), left, last) {
            return false;
        }
        p = next;
    }
    remaining(m, p) == 0
}

// The report of a message that opens as one.
fn read_body(m: &[u8]) -> ReportRead
    requires { Opens 1 3 7 (drop 6 m.now) m.now }
    ensures { (most : ℕ) → InSize most m.now → ReadAs most m.now result }
{
    if remaining(m, 7) < 3 {
        return ReportRead::NoReport;
    }
    let n = number(m, 7, 3);
    let total = (n / 65536 % 256) as u8;
    let index = (n / 256 % 256) as u8;
    let count = (n % 256) as u8;
    if head_refused(total, index, count) {
        return ReportRead::NoReport;
    }
    if !walk(m, count, index == total) {
        return ReportRead::NoReport;
    }
    ReportRead::Report(total, index, count)
}

// The report, where at most so many bytes are taken.
pub fn read_report_in(m: &[u8], most: usize) -> ReportRead
    ensures { ReadAs most m.now result }
{
    match open_message(m, most) {
        Err(Unopened::Size) => ReportRead::Size,
        Err(Unopened::Carrier) => ReportRead::Carrier,
        Ok(opened) => {
            if opened.kind != REPORT {
                return ReportRead::OtherType;
            }
            if opened.version != VERSION {
                return ReportRead::Version;
            }
            if opened.coding != UNICODE16 {
                return ReportRead::NoReport;
            }
            read_body(m)
        }
    }
}
