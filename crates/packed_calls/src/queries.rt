// Answering queries.
ghost use Rattle.working.specs.Seen.{Lends};
ghost use Rattle.packing.specs.PackedReports.{AnswersReport};
ghost use Rattle.reports.specs.Reporting.{Reportable};

use packing::report::pack_report;
use reporting::report::report_in;
use tables::limits::Limits;

// Number, how many messages the report has, and the length of the one of this index, which stands at the buffer's start. Refusals leave the buffer, 1 too.
pub fn packed_report(
    query: &[u8],
    index: u32,
    store: &[u8],
    buffer: &mut [u8],
    limits: Limits,
    work: &mut [u8],
) -> u64
    ensures { Reportable limits → Lends limits work.old → AnswersReport limits query.now index store.now buffer.old buffer.new result }
{
    let answer = report_in(query, index, store, buffer, limits, work);
    pack_report(answer)
}
