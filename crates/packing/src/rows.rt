// Where a row's text is.
ghost use Rattle.std.specs.Prelude.{◌<◌};
ghost use Rattle.packing.specs.Packing.{part_of, start_of, length_of, PacksPart};

use super::bits::low;
use screen::answers::Place;

// Bit 0: 0 a part of the store, 1 of the scratch; 16 to 31 where it starts; 32 to 47 its length, 0 on a refusal.
pub fn pack_place(place: Place) -> u64
    ensures { start_of (part_of place) < 65536 → length_of (part_of place) < 65536 → PacksPart (part_of place) result }
{
    match place {
        Place::Store(start, bytes) => low(start) * 65536 + low(bytes) * 4294967296,
        Place::Scratch(bytes) => 1 + low(bytes) * 4294967296,
        Place::Refused(_) => 0,
    }
}
