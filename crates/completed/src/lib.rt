// What stands in each cell of a completed triangle, and in each place of the answer lists, for a program that shows them.
#![tactic(auto)]

pub mod outstanding;
pub mod places;
pub mod shown;
pub mod square;
