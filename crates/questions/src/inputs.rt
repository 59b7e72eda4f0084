// Questions 1 to 7, and 5 to 7 by themselves, in the order in which they are asked.
ghost use Rattle.std.specs.Prelude.{◌≡◌};
ghost use Rattle.method.specs.Questions.{input_questions};
ghost use Rattle.lent.specs.Triangles.{triangle_of, lists_right};
ghost use Rattle.verdicts.specs.Verdicts.{verdict_of};
ghost use Rattle.questions.specs.Inputs.{Measured, questions_5_to_7};

use crate::list_questions::{question_4, question_5, question_7};
use lent::{AnswerLengths, Triangle};
use list_lengths::{ListLengths, questions_1_to_3};
use outstandings::question_6;
use verdicts::verdict::Verdict;

// The first refusal of questions 1 to 7, if there is one.
pub fn input_questions(triangle: Triangle<'_>, answers: Option<AnswerLengths>) -> Verdict
    ensures { verdict_of result ≡ input_questions (triangle_of triangle.entry) (lists_right (triangle_of triangle.entry) answers) }
{
    let lengths = ListLengths {
        payments: triangle.payments.len(),
        adjustments: triangle.adjustments.len(),
        weights: triangle.weights.len(),
        openings: triangle.openings.len(),
        answers,
    };
    questions_1_to_3(triangle.years, triangle.cut, lengths)?;
    question_4(triangle.years as usize, triangle.weights)?;
    questions_5_to_7(triangle)
}

// The first refusal of questions 5 to 7, if there is one. They go together, since question 6 needs amounts that question 5 has accepted.
pub fn questions_5_to_7(triangle: Triangle<'_>) -> Verdict
    requires { Measured (triangle_of triangle) }
    ensures { verdict_of result ≡ questions_5_to_7 (triangle_of triangle.entry) }
{
    let n = triangle.years as usize;
    let cut = triangle.cut as usize;
    question_5(n, cut, triangle.payments, triangle.adjustments)?;
    question_6(
        n,
        cut,
        triangle.payments,
        triangle.adjustments,
        triangle.openings,
    )?;
    question_7(n, cut, triangle.weights)
}
