// What is printed of a malformed text: where it is, what was expected and what was met, and what to do about it.
#![tactic(auto)]

mod advice;
pub mod messages;
