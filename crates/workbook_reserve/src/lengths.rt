// Questions 1 to 4 of a workbook. Question 3 is asked of all lists.
ghost use Rattle.std.specs.Prelude.{◌≡◌, ◌≤◌};
ghost use Rattle.method.specs.Limits.{most_accident_years};
ghost use Rattle.verdicts.specs.Verdicts.{verdict_of};
ghost use Rattle.workbook_cells.specs.Lent.{workbook_of};
ghost use Rattle.workbook_reserve.specs.Workbooks.{other_lengths_right, questions_1_to_4};

use list_lengths::{ListLengths, questions_1_to_3};
use questions::list_questions::question_4;
use verdicts::lengths::{amounts_length, future_length};
use verdicts::verdict::{Question, Verdict, asked};
use workbook_cells::lent_workbook::Workbook;

// The lengths of the lists that the filling call of document 01 does not read.
// Kept in a struct, where each has its name: as parameters, four lengths in a row would be told apart by their order alone.
#[derive(Clone, Copy)]
pub struct OtherLengths {
    pub payment_kinds: usize,
    pub adjustment_kinds: usize,
    pub future: usize,
    pub pairs: usize,
}

// The first refusal of questions 1 to 4, if there is one.
#[tactic(auto, using(questions::proofs::Counted::years_right, verdicts::proofs::Counts::count_fits))]
pub(crate) fn questions_1_to_4(workbook: Workbook<'_>, future: usize, pairs: usize) -> Verdict
    ensures { verdict_of result ≡ questions_1_to_4 (workbook_of workbook.entry) future pairs }
{
    let lengths = ListLengths {
        payments: workbook.payments.numbers.len(),
        adjustments: workbook.adjustments.numbers.len(),
        weights: workbook.weights.len(),
        openings: workbook.openings.len(),
        answers: None,
    };
    questions_1_to_3(workbook.years, workbook.cut, lengths)?;
    let n = workbook.years as usize;
    let others = OtherLengths {
        payment_kinds: workbook.payments.kinds.len(),
        adjustment_kinds: workbook.adjustments.kinds.len(),
        future,
        pairs,
    };
    asked(other_lengths_right(n, others), Question::Lengths)?;
    question_4(n, workbook.weights)
}

fn other_lengths_right(n: usize, others: OtherLengths) -> bool
    requires { n ≤ most_accident_years }
    ensures { result ≡ other_lengths_right n others }
{
    let amounts = amounts_length(n);
    (others.payment_kinds == amounts)
        & (others.adjustment_kinds == amounts)
        & (others.future == future_length(n))
        & (others.pairs == 6 * n)
}
