// What is printed of a refusal by a question: its number and its place, what is wrong there, and where the text has it.
#![tactic(auto)]

pub mod counts;
pub mod found;
pub mod lines;
mod sentences;
