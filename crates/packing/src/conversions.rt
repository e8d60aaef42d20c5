// What converting dialled numbers, addresses and channels answers. Bits 0 to 7 are the number, 8 to 39 the value.
ghost use Rattle.packing.specs.Packing.{PacksValue, value_or};

// C's numbers of the conversions that have no answer: of a dialled number, of an address, of a channel or a frequency.
pub const OUTSIDE_PLAN: u8 = 20;

pub const OUTSIDE_KIND: u8 = 21;

pub const NO_CHANNEL: u8 = 22;

// The value, or the number that is answered where there is none.
pub fn pack_value(answer: Option<u32>, refusal: u8) -> u64
    ensures { PacksValue (value_or refusal answer) result }
{
    match answer {
        Some(value) => value as u64 * 256,
        None => refusal as u64,
    }
}
