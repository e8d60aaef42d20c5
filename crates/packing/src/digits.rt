// How many digits stand behind a row.
ghost use Rattle.std.specs.Prelude.{[]};
ghost use Rattle.values.specs.Digits.{digits_told};
ghost use Rattle.packing.specs.PackedValues.{digits_fields, WhereFit};

use values::answers::NoValue;

// Bits 0 to 7 number, 8 to 15 how many.
pub fn pack_digits(answer: Result<usize, NoValue>) -> u64
    ensures { WhereFit (digits_fields (digits_told answer [])) result }
{
    match answer {
        Ok(count) => (count % 256) as u64 * 256,
        Err(why) => why as u64,
    }
}
