// Questions 1 to 3: n, the cut, and the lengths of the lists that a call lends.
#![tactic(auto)]

ghost use Rattle.std.specs.Prelude.{◌≡◌, ◌≤◌};
ghost use Rattle.method.specs.Limits.{most_accident_years};
ghost use Rattle.method.specs.Verdicts.{accepted};
ghost use Rattle.method.specs.Questions.{question_1, question_2, question_3};
ghost use Rattle.verdicts.specs.Verdicts.{verdict_of};
ghost use Rattle.list_lengths.specs.Lengths.{answers_right, list_lengths_right, questions_1_to_3};

use lent::AnswerLengths;
use verdicts::lengths::{amounts_length, future_length, reserves_length, weights_length};
use verdicts::limits::from_to;
use verdicts::verdict::{Question, Verdict, asked};
use verdicts::years::question_1;

// The lengths of all lists that a call lends.
// Kept as numbers and no lists: one call lends its cells as i64 and another as f64, and of both the same is asked.
#[derive(Clone, Copy, PartialEq, Eq)]
pub struct ListLengths {
    pub payments: usize,
    pub adjustments: usize,
    pub weights: usize,
    pub openings: usize,
    // none where no answer lists are lent
    pub answers: Option<AnswerLengths>,
}

// The first refusal of questions 1 to 3, if there is one. No length is formed of an n or a cut that is out of range.
#[tactic(auto, using(method::proofs::FirstRefusal::then_goes_on, method::proofs::FirstRefusal::then_stops, method::proofs::QuestionFacts::years_accepted, method::proofs::QuestionFacts::cut_accepted, verdicts::proofs::Refusals::handed_on))]
pub fn questions_1_to_3(years: i64, cut: i64, lengths: ListLengths) -> Verdict
    ensures { verdict_of result ≡ questions_1_to_3 years cut lengths }
{
    question_1(years)?;
    question_2(years, cut)?;
    question_3(years as usize, cut as usize, lengths)
}

// Whether the cut is from 1 to n − 1.
fn question_2(years: i64, cut: i64) -> Verdict
    requires { question_1 years ≡ accepted }
    ensures { verdict_of result ≡ question_2 years cut }
{
    asked(from_to(1, years - 1, cut), Question::Cut)
}

// Whether every list has its length. n and the cut stay beside the lengths, with what is asked of them: a struct of the three would be made for this one call.
#[tactic(auto, unfolding(method::specs::Questions::question_3, crate::specs::Lengths::list_lengths_right))]
fn question_3(n: usize, cut: usize, lengths: ListLengths) -> Verdict
    requires { (n ≤ most_accident_years) × (1 ≤ cut) }
    ensures { verdict_of result ≡ question_3 (list_lengths_right n cut lengths) }
{
    let amounts = amounts_length(n);
    let right = (lengths.payments == amounts)
        & (lengths.adjustments == amounts)
        & (lengths.weights == weights_length(n))
        & (lengths.openings == cut - 1)
        & answers_right(n, lengths.answers);
    asked(right, Question::Lengths)
}

// Whether the answer lists that are lent have their lengths.
fn answers_right(n: usize, answers: Option<AnswerLengths>) -> bool
    requires { n ≤ most_accident_years }
    ensures { result ≡ answers_right n answers }
{
    answers.is_none_or(|lent| (lent.future == future_length(n))
        & (lent.reserves == reserves_length(n)))
}
