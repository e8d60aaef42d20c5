// The settings that the radio works by.
ghost use Rattle.packing.specs.PackedValues.{AnswersHome, AnswersKey, AnswersSystem, Tunes};

use packing::fixed::{pack_home, pack_key, pack_system};
use packing::tuning::pack_tuned;
use tables::limits::Limits;
use values::fixed::{home_in, key_in, system_in};
use values::tuning::channel_in;

// Number, and the scan channel at a position from 0: 11, 17 refuse.
pub fn packed_channel(position: u32, store: &[u8], limits: Limits) -> u64
    ensures { Tunes limits position store.now result }
{
    let answer = channel_in(position as usize, store, limits);
    pack_tuned(answer)
}

// Number, and where the emergency key calls, with its flags: 11 refuses, here and below.
pub fn packed_key(store: &[u8], limits: Limits) -> u64
    ensures { AnswersKey limits store.now result }
{
    let answer = key_in(store, limits);
    pack_key(answer)
}

// Number, NZI and NP.
pub fn packed_home(store: &[u8], limits: Limits) -> u64
    ensures { AnswersHome limits store.now result }
{
    let answer = home_in(store, limits);
    pack_home(answer)
}

// Number, LAI, LA, roaming and PAR.
pub fn packed_system(store: &[u8], limits: Limits) -> u64
    ensures { AnswersSystem limits store.now result }
{
    let answer = system_in(store, limits);
    pack_system(answer)
}
