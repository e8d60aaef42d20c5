// Writing a store out.
ghost use Rattle.working.specs.Seen.{Lends};
ghost use Rattle.packing.specs.Packing.{Exports, Packable};

use export::exporting::export_in;
use packing::exports::pack_export;
use tables::limits::Limits;

// Number, and the length of the request of part 1 to 10, which stands at the buffer's start.
pub fn packed_export(
    part: u32,
    store: &[u8],
    buffer: &mut [u8],
    limits: Limits,
    work: &mut [u8],
) -> u64
    ensures { Packable limits → Lends limits work.old → Exports limits part store.now buffer.old buffer.new result }
{
    let answer = export_in(part, store, buffer, limits, work);
    pack_export(answer)
}
