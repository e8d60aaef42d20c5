// What stands behind a row, and the settings that the radio works by: addresses, digits, channels, the emergency key, home numbers, the system code.
#![tactic(auto)]

pub mod answers;
pub mod digits;
pub mod entries;
pub mod fixed;
pub mod flags;
pub mod handheld;
pub mod tuning;
pub mod vehicle;
