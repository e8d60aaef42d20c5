#![tactic(auto)]

// The desk emulator beside the hand-held: definitions and laws only, of two engines that are given the same messages.
