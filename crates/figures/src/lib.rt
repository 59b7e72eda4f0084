// Cells of text read as whole numbers.
#![tactic(auto)]

pub mod reading;
