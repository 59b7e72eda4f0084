// Reading a triangle: questions 1 to 8, and the ratios of a triangle that they accept.
#![tactic(auto)]

pub mod reading;
