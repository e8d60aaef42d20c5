#![tactic(auto)]

// Two requests under one header, and a request sent twice: laws only.
