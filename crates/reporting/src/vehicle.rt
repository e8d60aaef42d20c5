// The call of the vehicle, whose store is read as it is.
// Kept beside handheld.rt, since the README names both: each only calls report_in, which is generic, with a working copy of its own fixed size.
ghost use Rattle.lists.specs.Ladder.{Answers};
ghost use Rattle.tables.specs.Limits.{vehicle};
ghost use Rattle.reports.specs.Reporting.{reporting};
ghost use Rattle.reporting.specs.Told.{told};

use super::answers::{NoReport, Written};
use super::report::report_in;
use tables::limits::VEHICLE;

// The message of this index of the report that answers a query, or why there is none, and the buffer stays.
pub fn report(
    query: &[u8],
    index: u32,
    store: &[u8],
    buffer: &mut [u8],
) -> Result<Written, NoReport>
    ensures { Answers (reporting vehicle query.now index store.now buffer.old) (record { answer = told result; buffer = buffer.new }) }
{
    let mut none = [0u8; 0];
    report_in(query, index, store, buffer, VEHICLE, &mut none)
}
