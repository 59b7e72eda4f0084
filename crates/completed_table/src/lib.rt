// The completed triangle, line by line.
#![tactic(auto)]

pub mod completed_rows;
