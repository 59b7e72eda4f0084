// Numbers and amounts as text.
#![tactic(auto)]

pub mod writing;
