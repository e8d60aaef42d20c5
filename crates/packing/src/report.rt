// What the report call answers.
ghost use Rattle.std.specs.Prelude.{◌≡◌, ◌<◌};
ghost use Rattle.reporting.specs.Told.{no_report, told};
ghost use Rattle.packing.specs.PackedReports.{report_fields};
ghost use Rattle.packing.specs.PackedValues.{WhereFit};

use super::bits::low;
use reporting::answers::{NoReport, Written};

fn number_of(why: NoReport) -> u64
    ensures { result ≡ no_report why }
{
    match why {
        NoReport::Buffer => 15,
        NoReport::NotAStore => 11,
        NoReport::Size => 12,
        NoReport::Carrier => 13,
        NoReport::OtherType => 14,
        NoReport::Version => 1,
        NoReport::BadQuery => 4,
        NoReport::NoMessage => 16,
    }
}

// Bits 0 to 7 number, 8 to 15 total, 16 to 31 length.
pub fn pack_report(answer: Result<Written, NoReport>) -> u64
    ensures { WhereFit (report_fields (told answer)) result }
{
    match answer {
        Ok(written) => written.total as u64 * 256 + low(written.length) * 65536,
        Err(why) => number_of(why),
    }
}
