// Working copies of a store whose texts share one area: in a working copy every text has a place of its own, as the settings that are tried on it need.
#![tactic(auto)]

pub mod areas;
pub mod copies;
mod heads;
pub mod loading;
pub mod part_loading;
pub mod part_saving;
mod parts;
pub mod runs;
pub mod saving;
pub mod seen;
pub mod sums;
pub mod working;
