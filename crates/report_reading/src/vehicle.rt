// The reports of vehicle sets.
ghost use Rattle.tables.specs.Limits.{vehicle};
ghost use Rattle.report_reading.specs.Reading.{ReadAs};

use super::messages::{ReportRead, read_report_in};
use tables::limits::VEHICLE;

pub fn read_report(m: &[u8]) -> ReportRead
    ensures { ReadAs vehicle.message m.now result }
{
    read_report_in(m, VEHICLE.message)
}
