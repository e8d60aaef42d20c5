// The call of the handheld, which owns the working copy.
ghost use Rattle.lists.specs.Ladder.{Answers};
ghost use Rattle.tables.specs.Limits.{handheld};
ghost use Rattle.reports.specs.Reporting.{reporting};
ghost use Rattle.reporting.specs.Told.{told};

use super::answers::{NoReport, Written};
use super::report::report_in;
use tables::limits::{HANDHELD, HANDHELD_SIZE};

// The message of this index of the report that answers a query, or why there is none, and the buffer stays.
pub fn report(
    query: &[u8],
    index: u32,
    store: &[u8],
    buffer: &mut [u8],
) -> Result<Written, NoReport>
    ensures { Answers (reporting handheld query.now index store.now buffer.old) (record { answer = told result; buffer = buffer.new }) }
{
    let mut work = [0u8; HANDHELD_SIZE];
    report_in(query, index, store, buffer, HANDHELD, &mut work)
}
