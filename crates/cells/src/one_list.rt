// Questions 4, 5 and 7, each of the numbers of one list.
// A list is lent as it is, beside its n: each question is asked once or twice, so that a struct which knows that the two fit would be made and proved for one call.
// The questions are no twins but calls of one walk: each names its number and its test.
ghost use Rattle.std.specs.Prelude.{◌≡◌, ◌+◌, ◌≤◌, length};
ghost use Rattle.method.specs.Limits.{most_accident_years};
ghost use Rattle.method.specs.Triangle.{amounts_length};
ghost use Rattle.method.specs.Tests.{weight_in_range, amount_right, zero_where_missing, weight_allowed};
ghost use Rattle.verdicts.specs.Verdicts.{verdict_of};
ghost use Rattle.cells.specs.Cells.{whole_list};

use crate::walk::first_refusal;
use verdicts::limits::{GREATEST_AMOUNT, GREATEST_WEIGHT, from_to};
use verdicts::verdict::{Question, Verdict};

// Question 4: the first number that is no weight, if there is one.
pub fn weights_in_range(n: usize, list: &[i64]) -> Verdict
    requires { (n ≤ most_accident_years) × (length list.now ≡ amounts_length n) }
    ensures { verdict_of result ≡ whole_list 4 (λ i k. weight_in_range) n list.now }
{
    first_refusal(
        Question::WeightInRange,
        n,
        |at, _i, _k| from_to(0, GREATEST_WEIGHT, list[at]),
    )
}

// Question 5: the first number that is no amount or stands where the cell is missing, if there is one.
pub fn amounts_right(cut: usize, n: usize, list: &[i64]) -> Verdict
    requires { (n ≤ most_accident_years) × (length list.now ≡ amounts_length n) }
    ensures { verdict_of result ≡ whole_list 5 (amount_right cut) n list.now }
{
    first_refusal(
        Question::AmountRight,
        n,
        |at, i, k| amount_right(cut, i, k, list[at]),
    )
}

// Question 7: the first number that stands where the cell is missing, if there is one.
pub fn weights_allowed(cut: usize, n: usize, list: &[i64]) -> Verdict
    requires { (n ≤ most_accident_years) × (length list.now ≡ amounts_length n) }
    ensures { verdict_of result ≡ whole_list 7 (weight_allowed cut) n list.now }
{
    first_refusal(
        Question::WeightAllowed,
        n,
        |at, i, k| zero_up_to_cut(cut, i, k, list[at]),
    )
}

// Whether x is an amount that cell (i, k) may hold.
#[tactic(auto, unfolding(method::specs::Tests::amount_right))]
pub fn amount_right(cut: usize, i: usize, k: usize, x: i64) -> bool
    requires { (i ≤ most_accident_years) × (k ≤ most_accident_years) }
    ensures { result ≡ amount_right cut i k x }
{
    from_to(-GREATEST_AMOUNT, GREATEST_AMOUNT, x) & zero_up_to_cut(cut, i, k, x)
}

// Whether x is 0 if i + k is at most the cut.
#[tactic(auto, using(integers::proofs::MachineArithmetic::zero_bits), unfolding(method::specs::Tests::zero_where_missing))]
fn zero_up_to_cut(cut: usize, i: usize, k: usize, x: i64) -> bool
    requires { (i ≤ most_accident_years) × (k ≤ most_accident_years) }
    ensures { result ≡ zero_where_missing cut i k x }
{
    !(i + k <= cut) | (x == 0)
}
