// Writing a store out.
ghost use Rattle.tables.specs.Limits.{handheld};
ghost use Rattle.packing.specs.Packing.{Exports};

use packed_calls::exports::packed_export;
use tables::limits::{HANDHELD, HANDHELD_SIZE};

// Number, and the length of the request of part 1 to 10, which stands at the buffer's start.
#[unsafe(no_mangle)]
pub extern "C" fn otap_export(part: u32, store: &[u8], buffer: &mut [u8]) -> u64
    ensures { Exports handheld part store.now buffer.old buffer.new result }
{
    let mut work = [0u8; HANDHELD_SIZE];
    packed_export(part, store, buffer, HANDHELD, &mut work)
}
