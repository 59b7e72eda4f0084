// Question 6: the openings and the observed outstandings, row by row.
#![tactic(auto)]

ghost use Rattle.std.specs.Prelude.{◌≡◌, List, ◌+◌, ◌≤◌, ℤ, suc, ◌+ℤ◌, ◌-ℤ◌};
ghost use Rattle.method.specs.Limits.{most_accident_years};
ghost use Rattle.method.specs.Triangle.{entry};
ghost use Rattle.method.specs.Tests.{outstanding_in_range};
ghost use Rattle.method.specs.Questions.{question_6};
ghost use Rattle.lent.specs.Triangles.{counted};
ghost use Rattle.verdicts.specs.Verdicts.{verdict_of};
ghost use Rattle.outstandings.specs.Observed.{AmountsRight, Movable};

use lists::number_at;
use verdicts::lengths::cells_before;
use verdicts::limits::{GREATEST_OUTSTANDING, from_to};
use verdicts::verdict::{Question, Verdict, asked_at};

// The first opening or outstanding out of range, if there is one. It takes what it reads, and no weights.
// A walk of its own, and not `first_refusal`: a test of that walk keeps nothing from one cell to the next, and each outstanding is made from the one before.
pub fn question_6<'a>(
    n: usize,
    cut: usize,
    payments: &'a [i64],
    adjustments: &'a [i64],
    openings: &'a [i64],
) -> Verdict
    requires { AmountsRight n cut payments.now adjustments.now openings.now }
    ensures { (weights : List ℤ) → verdict_of result ≡ question_6 (counted n cut payments.now adjustments.now weights openings.now) }
{
    for r in 0..n {
        let start = cells_before(n, r);
        let mut outstanding = opening_of(openings, r);
        for j in 0..n - r {
            let at = start + j;
            outstanding = next_outstanding(outstanding, payments[at], adjustments[at]);
            let in_range = outstanding_in_range(cut, r + 1, j + 1, outstanding);
            asked_at(in_range, Question::OutstandingInRange, r + 1, j + 1)?;
        }
    }
    Ok(())
}

// The outstanding from which accident year r + 1 starts: its opening, or 0 where it has none.
#[tactic(auto, unfolding(method::specs::Triangle::entry))]
pub fn opening_of(openings: &[i64], r: usize) -> i64
    ensures { result ≡ entry openings.now (suc r) }
{
    number_at(openings, r)
}

// Whether the outstanding of cell (i, k) is in range, where it is known.
#[tactic(auto, unfolding(method::specs::Tests::outstanding_in_range, method::specs::Tests::known))]
fn outstanding_in_range(cut: usize, i: usize, k: usize, outstanding: i64) -> bool
    requires { (i ≤ most_accident_years) × (k ≤ most_accident_years) }
    ensures { result ≡ outstanding_in_range cut i k outstanding }
{
    !(cut <= i + k) | from_to(0, GREATEST_OUTSTANDING, outstanding)
}

// The outstanding after a year's payment and adjustment.
pub fn next_outstanding(outstanding: i64, payment: i64, adjustment: i64) -> i64
    requires { Movable outstanding payment adjustment }
    ensures { result ≡ outstanding -ℤ payment +ℤ adjustment }
{
    outstanding - payment + adjustment
}
