#![tactic(auto)]

// Taking, the screen and what stands behind a row together: laws only.
