// Answering queries.
ghost use Rattle.tables.specs.Limits.{handheld};
ghost use Rattle.packing.specs.PackedReports.{AnswersReport};

use packed_calls::queries::packed_report;
use tables::limits::{HANDHELD, HANDHELD_SIZE};

// Number, how many messages the report has, and the length of the one of this index, which stands at the buffer's start. Refusals leave the buffer, 1 too.
#[unsafe(no_mangle)]
pub extern "C" fn otap_report(query: &[u8], index: u32, store: &[u8], buffer: &mut [u8]) -> u64
    ensures { AnswersReport handheld query.now index store.now buffer.old buffer.new result }
{
    let mut work = [0u8; HANDHELD_SIZE];
    packed_report(query, index, store, buffer, HANDHELD, &mut work)
}
