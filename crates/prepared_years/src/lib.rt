// A triangle prepared to be projected: what divides is done here, once a call, for any number of shares.
#![tactic(auto)]

pub mod triangle;
pub mod year;
pub mod years;
