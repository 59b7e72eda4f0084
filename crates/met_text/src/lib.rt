// The text that was met where a fault is: where it stands, and how a message shows it.
#![tactic(auto)]

pub mod met;
pub mod shown_text;
