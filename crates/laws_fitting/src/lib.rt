#![tactic(auto)]

// One set takes what another has exported, or where it stops: laws only.
