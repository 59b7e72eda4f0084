// The lines of a text, and what is sought in them.
#![tactic(auto)]

pub mod lines;
pub mod search;
