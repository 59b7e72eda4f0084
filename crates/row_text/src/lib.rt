// A row of numbers in a text, read into a list.
#![tactic(auto)]

pub mod entries;
pub mod rows;
