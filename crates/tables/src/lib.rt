// What is printed of an accepted triangle besides its reserves and its completed run-off: how it was read, the ratios' sums, and one cell alone.
#![tactic(auto)]

pub mod accepted;
pub mod one_cell;
pub mod sums_rows;
