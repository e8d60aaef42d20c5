// How much a store holds.
ghost use Rattle.tables.specs.Limits.{handheld};
ghost use Rattle.packing.specs.Packing.{Counts};

use packed_calls::counts::packed_counts;
use tables::limits::HANDHELD;

// Number, and how many lines and channels the store holds.
#[unsafe(no_mangle)]
pub extern "C" fn otap_counts(store: &[u8]) -> u64
    ensures { Counts handheld store.now result }
{
    packed_counts(store, HANDHELD)
}
