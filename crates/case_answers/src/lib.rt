// What the calls beside judging and committing answer in the programs of cases, a line each.
#![tactic(auto)]

pub mod count_lines;
pub mod moving;
pub mod report_lines;
pub mod row_lines;
