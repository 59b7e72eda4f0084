// The text of a triangle, read into the lists that a call lends. docs/FORMAT.md says what a text is.
#![tactic(auto)]

pub mod reading;
mod short_text;
