// Reads the parts of a setting at a place of a message: bytes, texts, numbers, addresses, channels, hash values and entries.
#![tactic(auto)]

pub mod addresses;
pub mod bytes;
pub mod channels;
pub mod entries;
pub mod hashes;
pub mod numbers;
pub mod texts;
