// The headings of a triangle's text: where a heading stands, and what it says.
#![tactic(auto)]

pub mod places;
