// The rows under a heading, read into a list that a call lends, and the weights where a text gives none.
#![tactic(auto)]

pub mod faults;
pub mod lines;
mod row_line;
pub mod weights;
