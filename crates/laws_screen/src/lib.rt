#![tactic(auto)]

// Taking and the screen together: laws only.
