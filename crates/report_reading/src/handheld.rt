// The reports of hand-helds.
ghost use Rattle.tables.specs.Limits.{handheld};
ghost use Rattle.report_reading.specs.Reading.{ReadAs};

use super::messages::{ReportRead, read_report_in};
use tables::limits::HANDHELD;

pub fn read_report(m: &[u8]) -> ReportRead
    ensures { ReadAs handheld.message m.now result }
{
    read_report_in(m, HANDHELD.message)
}
