// What each line of a triangle's text is.
#![tactic(auto)]

pub mod kinds;
