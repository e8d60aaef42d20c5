// The functions that a desk emulator calls, in C or Rust. Crates packing and packing_desk say which bits of an answer are what.
#![tactic(auto)]

mod messages;
mod rows;
