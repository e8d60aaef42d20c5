// How much a store holds.
ghost use Rattle.packing.specs.Packing.{Counts};

use menu::counting::counts_in;
use packing::counts::pack_counts;
use tables::limits::Limits;

// Number, and how many lines and channels the store holds.
pub fn packed_counts(store: &[u8], limits: Limits) -> u64
    ensures { Counts limits store.now result }
{
    let answer = counts_in(store, limits);
    pack_counts(answer)
}
