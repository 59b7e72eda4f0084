// The separator of a text, and the cells and the words of a line.
#![tactic(auto)]

pub mod cells;
pub mod words;
