// Question 1: the number of accident years.
ghost use Rattle.std.specs.Prelude.{◌≡◌};
ghost use Rattle.method.specs.Questions.{question_1};
ghost use Rattle.verdicts.specs.Verdicts.{verdict_of};

use crate::limits::{FEWEST_YEARS, MOST_YEARS, from_to};
use crate::verdict::{Question, Verdict, asked};

// The verdict of question 1: whether n is from 2 to 32.
#[tactic(auto, unfolding(method::specs::Questions::question_1, method::specs::Tests::years_in_range))]
pub fn question_1(years: i64) -> Verdict
    ensures { verdict_of result ≡ question_1 years }
{
    asked(from_to(FEWEST_YEARS, MOST_YEARS, years), Question::Years)
}
