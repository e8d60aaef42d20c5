// How much a store holds.
ghost use Rattle.tables.specs.Limits.{vehicle};
ghost use Rattle.packing.specs.Packing.{Counts};

use packed_calls::counts::packed_counts;
use tables::limits::VEHICLE;

// Number, and how many lines and channels the store holds.
#[unsafe(no_mangle)]
pub extern "C" fn otap_vehicle_counts(store: &[u8]) -> u64
    ensures { Counts vehicle store.now result }
{
    packed_counts(store, VEHICLE)
}
