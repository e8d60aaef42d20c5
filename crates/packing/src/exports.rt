// What exporting answers.
ghost use Rattle.std.specs.Prelude.{◌<◌, ◌≡◌};
ghost use Rattle.export.specs.Exporting.{no_export, told};
ghost use Rattle.packing.specs.Packing.{PacksExport};

use super::bits::low;
use export::parts::NoExport;

fn number_of(why: NoExport) -> u64
    ensures { result ≡ no_export why }
{
    match why {
        NoExport::Buffer => 15,
        NoExport::NotAStore => 11,
        NoExport::NoPart => 16,
    }
}

// Bits 0 to 7 number, 16 to 31 length.
pub fn pack_export(answer: Result<usize, NoExport>) -> u64
    ensures { (told answer).request_length < 65536 → PacksExport (told answer) result }
{
    match answer {
        Ok(length) => low(length) * 65536,
        Err(why) => number_of(why),
    }
}
