// What checking and proposing an update answer.
ghost use Rattle.std.specs.Prelude.{◌<◌};
ghost use Rattle.packing.specs.PackedValues.{PacksFields};
ghost use Rattle.packing.specs.Packing.{PacksExport};
ghost use Rattle.updating.specs.Updating.{told};
ghost use Rattle.packing_office.specs.PackedUpdate.{check_fields};

use packing::bits::low;
use updating::answers::{Check, Proposal};

// Bits 0 to 7 number, 8 yes.
pub fn pack_check(answer: Check) -> u64
    ensures { PacksFields (check_fields answer) result }
{
    match answer {
        Check::Yes => 256,
        Check::No => 0,
        Check::FirstNotAStore => 11,
        Check::SecondNotAStore => 11,
    }
}

// Bits 0 to 7 number, 16 to 31 length, as of an export.
pub fn pack_proposal(answer: Proposal) -> u64
    ensures { (told answer).request_length < 65536 → PacksExport (told answer) result }
{
    match answer {
        Proposal::Written(length) => low(length) * 65536,
        Proposal::FirstNotAStore => 11,
        Proposal::SecondNotAStore => 11,
        Proposal::Buffer => 15,
        Proposal::NoSinglePart => 19,
    }
}
