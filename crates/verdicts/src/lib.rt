// The verdict on a triangle, the limits of document 01 and the lengths of its lists, and question 1, which every call asks.
#![tactic(auto)]

pub mod lengths;
pub mod limits;
pub mod verdict;
pub mod years;
