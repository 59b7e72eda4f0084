// Questions 4, 5 and 7 by themselves, each of whole lists in list order. Each takes the lists that it reads and no others: a workbook's call asks question 4 before it has amounts.
// A list is lent as it is, beside its n: a struct that knew that the two fit would be made for one question.
ghost use Rattle.std.specs.Prelude.{◌≡◌, List, ℕ, ◌≤◌, ℤ, length};
ghost use Rattle.method.specs.Limits.{most_accident_years};
ghost use Rattle.method.specs.Triangle.{amounts_length, weights_length};
ghost use Rattle.method.specs.Questions.{question_4, question_5, question_7};
ghost use Rattle.lent.specs.Triangles.{counted};
ghost use Rattle.verdicts.specs.Verdicts.{verdict_of};

use cells::one_list::{amounts_right, weights_allowed, weights_in_range};
use verdicts::verdict::Verdict;

// The first weight out of range, if there is one.
#[tactic(auto, unfolding(method::specs::Questions::question_4, cells::specs::Cells::whole_list))]
pub fn question_4(n: usize, weights: &[i64]) -> Verdict
    requires { (1 ≤ n) × (n ≤ most_accident_years) × (length weights.now ≡ weights_length n) }
    ensures { (cut : ℕ) (payments adjustments openings : List ℤ)
        → verdict_of result ≡ question_4 (counted n cut payments adjustments weights.now openings) }
{
    weights_in_range(n - 1, weights)
}

// The first payment, then the first adjustment, that is out of range or stands where the cell is missing, if there is one.
pub fn question_5<'a>(n: usize, cut: usize, payments: &'a [i64], adjustments: &'a [i64]) -> Verdict
    requires { (n ≤ most_accident_years) × (length payments.now ≡ amounts_length n) × (length adjustments.now ≡ amounts_length n) }
    ensures { (weights openings : List ℤ)
        → verdict_of result ≡ question_5 (counted n cut payments.now adjustments.now weights openings) }
{
    amounts_right(cut, n, payments)?;
    amounts_right(cut, n, adjustments)
}

// The first weight that stands where the cell is missing, if there is one.
#[tactic(auto, unfolding(method::specs::Questions::question_7, cells::specs::Cells::whole_list))]
pub fn question_7(n: usize, cut: usize, weights: &[i64]) -> Verdict
    requires { (1 ≤ n) × (n ≤ most_accident_years) × (length weights.now ≡ weights_length n) }
    ensures { (payments adjustments openings : List ℤ)
        → verdict_of result ≡ question_7 (counted n cut payments adjustments weights.now openings) }
{
    weights_allowed(cut, n - 1, weights)
}
