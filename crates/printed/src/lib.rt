// A line to be printed, as its bytes: texts, numbers and spaces set after one another, templates with numbers in their places,
// and the entries of a table.
#![tactic(auto)]

pub mod columns;
pub mod counts;
pub mod entries;
pub mod filling;
pub mod line;
