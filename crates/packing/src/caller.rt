// What looking a caller up answers.
ghost use Rattle.std.specs.Prelude.{◌<◌};
ghost use Rattle.callers.specs.Callers.{told};
ghost use Rattle.packing.specs.Packing.{row_of, PacksCaller};

use super::bits::low;
use callers::lookup::NoCaller;

// Bits 0 to 7 number, 8 whether a row has it, 16 to 31 the row.
pub fn pack_caller(answer: Result<Option<usize>, NoCaller>) -> u64
    ensures { row_of (told answer).row < 65536 → PacksCaller (told answer) result }
{
    match answer {
        Ok(Some(row)) => 256 + low(row) * 65536,
        Ok(None) => 0,
        Err(why) => why as u64,
    }
}
