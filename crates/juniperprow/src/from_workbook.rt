// The call of a host with a workbook's cells.
ghost use Rattle.std.specs.Prelude.{length};
ghost use Rattle.juniperprow.specs.HostAnswers.{workbook_lent, WorkbookAnswered};

use crate::VerdictAnswer;
use workbook_cells::lent_workbook::{Workbook, WorkbookCells};
use workbook_reserve::reserve::workbook_reserve;

// Fills the future list and the reserves as pairs of floats, from a workbook's cells, and answers the verdict. A refused call leaves zeros throughout both.
pub fn juniperprow_workbook_reserve<'a>(
    years: i64,
    cut: i64,
    payment_kinds: &'a [u8],
    payments: &'a [f64],
    adjustment_kinds: &'a [u8],
    adjustments: &'a [f64],
    weights: &'a [i64],
    openings: &'a [i64],
    future: &mut [i64],
    reserve_pairs: &mut [f64],
) -> VerdictAnswer
    ensures { WorkbookAnswered
        (workbook_lent years cut payment_kinds.now payments.now adjustment_kinds.now adjustments.now
        weights.now openings.now)
        (length future.old) (length reserve_pairs.old) result future.new reserve_pairs.new }
{
    let workbook = Workbook {
        years,
        cut,
        payments: WorkbookCells {
            kinds: payment_kinds,
            numbers: payments,
        },
        adjustments: WorkbookCells {
            kinds: adjustment_kinds,
            numbers: adjustments,
        },
        weights,
        openings,
    };
    VerdictAnswer::from(workbook_reserve(workbook, future, reserve_pairs))
}
