// The call with a workbook's cells.
ghost use Rattle.std.specs.Prelude.{◌≡◌, length};
ghost use Rattle.method.specs.Verdicts.{accepted};
ghost use Rattle.verdicts.specs.Verdicts.{verdict_of};
ghost use Rattle.workbook.specs.Answers.{workbook_answer};
ghost use Rattle.workbook.specs.Demand1.{Demand1OfWorkbook};
ghost use Rattle.workbook.specs.Agreement.{WorkbookAgrees};
ghost use Rattle.workbook_cells.specs.Lent.{workbook_of};
ghost use Rattle.workbook_reserve.specs.Workbooks.{workbook_answer_of, questions_1_to_4, WorkbookFilled};

use crate::lengths::questions_1_to_4;
use crate::pairs::reserve_in_pairs;
use lent::Triangle;
use verdicts::lengths::SEEN_CELLS;
use verdicts::verdict::Verdict;
use workbook_cells::convert;
use workbook_cells::lent_workbook::Workbook;
use workbook_questions::questions_11_to_13;

// The verdict of questions 1 to 4, 11 to 13 and 5 to 9. Where they accept, the future list is that of the converted triangle, and the list of pairs holds
// its reserve list as pairs of floats; else both hold zeros throughout, and no minus zero.
// What is lent may be anything: n, the cut and every number any i64, kind bytes and floats any, and the lists of any length.
pub fn workbook_reserve(workbook: Workbook<'_>, future: &mut [i64], pairs: &mut [f64]) -> Verdict
    ensures whole { workbook_answer_of (verdict_of result) future.new pairs.new
        ≡ workbook_answer (workbook_of workbook.entry) (length future.old) (length pairs.old) }
    ensures demand_1 { Demand1OfWorkbook (workbook_of workbook.entry) (length future.old) (length pairs.old)
        (verdict_of result) future.new pairs.new }
    ensures agrees { verdict_of result ≡ accepted → WorkbookAgrees (workbook_of workbook.entry) future.new pairs.new }
{
    let verdict = fill(workbook, future, pairs);
    if verdict.is_err() {
        future.fill(0);
        pairs.fill(0.0);
    }
    verdict
}

// The same, but that nothing is said of what a refused call leaves in the lists.
#[tactic(auto, using(crate::proofs::AllLengths::amounts_have_room, crate::proofs::AllLengths::part_long))]
fn fill(workbook: Workbook<'_>, future: &mut [i64], pairs: &mut [f64]) -> Verdict
    ensures { WorkbookFilled (workbook_of workbook.entry) (length future.old) (length pairs.old)
        (verdict_of result) future.new pairs.new }
{
    questions_1_to_4(workbook, future.len(), pairs.len())?;
    let mut paid = [0i64; SEEN_CELLS];
    let mut adjusted = [0i64; SEEN_CELLS];
    let count = workbook.payments.numbers.len();
    convert_and_fill(
        workbook,
        &mut paid[..count],
        &mut adjusted[..count],
        future,
        pairs,
    )
}

// The same where questions 1 to 4 have accepted, by way of lists of amounts.
#[tactic(auto, using(crate::proofs::AllLengths::years_right, crate::proofs::AllLengths::cut_right, crate::proofs::AllLengths::lengths_right, verdicts::proofs::Counts::count_fits))]
fn convert_and_fill(
    workbook: Workbook<'_>,
    paid: &mut [i64],
    adjusted: &mut [i64],
    future: &mut [i64],
    pairs: &mut [f64],
) -> Verdict
    requires pairs_value { questions_1_to_4 (workbook_of workbook) (length future.old) (length pairs.old) ≡ accepted }
    requires paid_len { (length paid.old ≡ length workbook.payments.numbers.now) × (length adjusted.old ≡ length workbook.payments.numbers.now) }
    ensures { WorkbookFilled (workbook_of workbook.entry) (length future.old) (length pairs.old)
        (verdict_of result) future.new pairs.new }
{
    let paid_whole = convert(workbook.payments, paid);
    let adjusted_whole = convert(workbook.adjustments, adjusted);
    questions_11_to_13(
        workbook.years as usize,
        workbook.cut as usize,
        paid_whole & adjusted_whole,
        workbook.payments,
        workbook.adjustments,
    )?;
    let triangle = Triangle {
        years: workbook.years,
        cut: workbook.cut,
        payments: paid,
        adjustments: adjusted,
        weights: workbook.weights,
        openings: workbook.openings,
    };
    reserve_in_pairs(triangle, future, pairs)
}
