// What a call lends to be read, as it stands: nothing is known of it yet.
#![tactic(auto)]

// A triangle: n, the cut and every number may be any i64, and the lists of any length.
#[derive(Clone, Copy)]
pub struct Triangle<'a> {
    pub years: i64,
    pub cut: i64,
    pub payments: &'a [i64],
    pub adjustments: &'a [i64],
    pub weights: &'a [i64],
    pub openings: &'a [i64],
}

// The lengths of the two answer lists that the filling call lends beside a triangle.
#[derive(Clone, Copy, PartialEq, Eq)]
pub struct AnswerLengths {
    pub future: usize,
    pub reserves: usize,
}
