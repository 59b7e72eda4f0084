// Questions 11, 12 and 13, each of the cells of a workbook in list order, payments first.
#![tactic(auto)]

ghost use Rattle.std.specs.Prelude.{◌≡◌, ◌≤◌, eqb};
ghost use Rattle.std.specs.Bool.{beq};
ghost use Rattle.method.specs.Limits.{most_accident_years};
ghost use Rattle.method.specs.Triangle.{missing};
ghost use Rattle.verdicts.specs.Verdicts.{verdict_of};
ghost use Rattle.workbook.specs.Cells.{workbook_cell, whole_or_blank};
ghost use Rattle.workbook.specs.Questions.{kinds_known, numbers_whole, blanks_missing};
ghost use Rattle.workbook_cells.specs.Lent.{cells_of};
ghost use Rattle.workbook_questions.specs.CellQuestions.{CellsRight, both_convertible, questions_11_to_13};

use cells::walk::first_refusal;
use verdicts::verdict::{Question, Verdict};
use workbook_cells::lent_workbook::WorkbookCells;
use workbook_cells::{amount_of, cell_of};

// The first refusal of questions 11 to 13, if there is one.
// `convertible` says whether every cell could be converted, so that 11 and 12 need not be asked: they are, to find number and place, only where one could not.
// No plainer as an Option: no value lies beside it.
#[tactic(auto, using(crate::proofs::Convertible::convertible_accepted, method::proofs::FirstRefusal::then_goes_on, method::proofs::FirstRefusal::then_stops, verdicts::proofs::Refusals::handed_on))]
pub fn questions_11_to_13(
    n: usize,
    cut: usize,
    convertible: bool,
    payments: WorkbookCells<'_>,
    adjustments: WorkbookCells<'_>,
) -> Verdict
    requires cells_right { CellsRight n (cells_of payments) × CellsRight n (cells_of adjustments) }
    requires convertible_value { convertible ≡ both_convertible (cells_of payments) (cells_of adjustments) }
    ensures { verdict_of result ≡ questions_11_to_13 n cut (cells_of payments.entry) (cells_of adjustments.entry) }
{
    let payments = SeenCells { n, cells: payments };
    let adjustments = SeenCells {
        n,
        cells: adjustments,
    };
    if !convertible {
        payments.kinds_known()?;
        adjustments.kinds_known()?;
        payments.numbers_whole()?;
        adjustments.numbers_whole()?;
    }
    payments.blanks_missing(cut)?;
    adjustments.blanks_missing(cut)
}

// The cells of a list as questions 1 to 3 leave it: a kind byte and a float for every seen cell of n accident years.
#[derive(Clone, Copy)]
struct SeenCells<'a> {
    n: usize,
    cells: WorkbookCells<'a>,
    ghost right: { CellsRight n (cells_of cells) },
}

impl<'a> SeenCells<'a> {
    // Question 11.
    #[tactic(auto, using(cells::proofs::CellWalk::cell_here), unfolding(workbook::specs::Questions::kinds_known))]
    fn kinds_known(self) -> Verdict
        ensures { verdict_of result ≡ kinds_known self.entry.n (cells_of self.entry.cells) }
    {
        let kinds = self.cells.kinds;
        first_refusal(Question::KindKnown, self.n, |at, _, _| kinds[at] <= 1)
    }

    // Question 12.
    #[tactic(auto, using(cells::proofs::CellWalk::cell_here), unfolding(workbook::specs::Questions::numbers_whole))]
    fn numbers_whole(self) -> Verdict
        ensures { verdict_of result ≡ numbers_whole self.entry.n (cells_of self.entry.cells) }
    {
        let WorkbookCells { kinds, numbers } = self.cells;
        first_refusal(Question::NumberWhole, self.n, |at, _, _| {
            whole_or_blank(kinds[at], numbers[at])
        })
    }

    // Question 13.
    #[tactic(auto, using(cells::proofs::CellWalk::cell_here, workbook::proofs::CellTests::blank_by_kind), unfolding(workbook::specs::Questions::blanks_missing))]
    fn blanks_missing(self, cut: usize) -> Verdict
        ensures { verdict_of result ≡ blanks_missing self.entry.n cut (cells_of self.entry.cells) }
    {
        let kinds = self.cells.kinds;
        first_refusal(Question::BlankWhereMissing, self.n, |at, i, k| {
            blank_where_missing(cut, i, k, kinds[at])
        })
    }
}

fn whole_or_blank(kind: u8, number: f64) -> bool
    ensures { result ≡ whole_or_blank (workbook_cell kind number) }
{
    amount_of(cell_of(kind, number)).is_some()
}

// Whether the cell is blank if i + k is at most the cut, and not blank if it is above.
fn blank_where_missing(cut: usize, i: usize, k: usize, kind: u8) -> bool
    requires { (i ≤ most_accident_years) × (k ≤ most_accident_years) }
    ensures { result ≡ beq (eqb kind 0) (missing cut i k) }
{
    (kind == 0) == (i + k <= cut)
}
