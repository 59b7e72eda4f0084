// The call with a workbook's cells, which fills the future list and answers the reserves as pairs of floats.
#![tactic(auto)]

pub mod lengths;
pub mod pairs;
pub mod reserve;
