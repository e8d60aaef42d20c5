// Writing a store out.
ghost use Rattle.tables.specs.Limits.{vehicle};
ghost use Rattle.packing.specs.Packing.{Exports};

use packed_calls::exports::packed_export;
use tables::limits::VEHICLE;

// Number, and the length of the request of part 1 to 10, which stands at the buffer's start.
#[unsafe(no_mangle)]
pub extern "C" fn otap_vehicle_export(part: u32, store: &[u8], buffer: &mut [u8]) -> u64
    ensures { Exports vehicle part store.now buffer.old buffer.new result }
{
    let mut none = [0u8; 0];
    packed_export(part, store, buffer, VEHICLE, &mut none)
}
