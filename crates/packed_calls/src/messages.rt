// Stores.
ghost use Rattle.packing.specs.Packing.{Starts};

use packing::messages::start_number;
use tables::limits::Limits;
use tables::start::start;

// 0: the bytes are a fresh store. 11: they are not as many as a store has, and stay.
pub fn number_of_start(store: &mut [u8], limits: Limits) -> u32
    ensures { Starts limits store.old store.new result }
{
    let did = start(store, limits);
    start_number(did)
}
