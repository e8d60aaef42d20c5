// The settings that the radio works by.
ghost use Rattle.tables.specs.Limits.{handheld};
ghost use Rattle.packing.specs.PackedValues.{AnswersHome, AnswersKey, AnswersSystem, Tunes};

use packed_calls::radio::{packed_channel, packed_home, packed_key, packed_system};
use tables::limits::HANDHELD;

// Number, and the scan channel at a position from 0: 11, 17 refuse.
#[unsafe(no_mangle)]
pub extern "C" fn otap_channel(position: u32, store: &[u8]) -> u64
    ensures { Tunes handheld position store.now result }
{
    packed_channel(position, store, HANDHELD)
}

// Number, and where the emergency key calls, with its flags: 11 refuses, here and below.
#[unsafe(no_mangle)]
pub extern "C" fn otap_emergency_key(store: &[u8]) -> u64
    ensures { AnswersKey handheld store.now result }
{
    packed_key(store, HANDHELD)
}

// Number, NZI and NP.
#[unsafe(no_mangle)]
pub extern "C" fn otap_home_numbers(store: &[u8]) -> u64
    ensures { AnswersHome handheld store.now result }
{
    packed_home(store, HANDHELD)
}

// Number, LAI, LA, roaming and PAR.
#[unsafe(no_mangle)]
pub extern "C" fn otap_system_code(store: &[u8]) -> u64
    ensures { AnswersSystem handheld store.now result }
{
    packed_system(store, HANDHELD)
}
