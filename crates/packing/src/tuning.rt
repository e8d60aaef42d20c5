// The channel at a position.
ghost use Rattle.values.specs.Values.{told};
ghost use Rattle.packing.specs.PackedValues.{channel_fields, WhereFit};

use values::answers::NoValue;

// Bits 0 to 7 number, 8 to 19 the channel.
pub fn pack_tuned(answer: Result<u16, NoValue>) -> u64
    ensures { WhereFit (channel_fields (told answer)) result }
{
    match answer {
        Ok(channel) => (channel % 4096) as u64 * 256,
        Err(why) => why as u64,
    }
}
