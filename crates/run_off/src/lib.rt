// The run-off of an accident year: its row, with question 9.
#![tactic(auto)]

pub mod rows;
