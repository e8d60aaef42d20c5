// What the reader answers of a message.
ghost use Rattle.std.specs.Prelude.{ℕ, ◌≡◌, List, length};
ghost use Rattle.reports.specs.Items.{Item};
ghost use Rattle.report_reading.specs.Reading.{counted, told};
ghost use Rattle.packing.specs.PackedValues.{WhereFit};
ghost use Rattle.packing_office.specs.PackedReading.{message_fields};

use report_reading::messages::ReportRead;

// Bits 0 to 7 number, 8 to 15 total, 16 to 23 index, 24 to 31 how many parameters.
pub fn pack_message(answer: ReportRead) -> u64
    ensures { (items : List Item) → length items ≡ counted answer → WhereFit (message_fields (told answer items)) result }
{
    match answer {
        ReportRead::Size => 12,
        ReportRead::Carrier => 13,
        ReportRead::OtherType => 14,
        ReportRead::Version => 1,
        ReportRead::NoReport => 4,
        ReportRead::Report(total, index, count) => {
            total as u64 * 256 + index as u64 * 65536 + count as u64 * 16777216
        }
    }
}
