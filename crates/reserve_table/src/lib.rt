// The table of reserves by accident year, with totals, line by line.
#![tactic(auto)]

pub mod reserve_rows;
mod totals;
