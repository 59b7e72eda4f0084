// The calls of a host, as include/juniperprow.h declares them; crate juniperprow_c exports them to C. There a list is a pointer and then a count.
// Each has its parameters one by one, as C lends them.
#![tactic(auto)]

ghost use Rattle.std.specs.Prelude.{◌≡◌, length};
ghost use Rattle.verdicts.specs.Verdicts.{verdict_of};
ghost use Rattle.single_cell.specs.Answers.{cell_of};
ghost use Rattle.juniperprow.specs.HostAnswers.{triangle_lent, verdict_answer, cell_answer, ReserveAnswered, CellAnswered, RowAnswered};

pub mod from_workbook;

use calls::reserve::reserve;
use lent::Triangle;
use projection::Movement;
use rows::{AmountList, row_verdict};
use single_cell::single_cell;
use verdicts::verdict::{Place, Refusal, Verdict};

// The number of the question that refused the call, and the place; all 0 where it is accepted: numbers and no enum, as the C interface needs. In C: juniperprow_verdict.
#[repr(C)]
#[derive(Clone, Copy)]
pub struct VerdictAnswer {
    pub number: i64,
    pub accident_year: i64,
    pub development_year: i64,
}

impl From<Verdict> for VerdictAnswer {
    ghost from_gives = { λ verdict answer. answer ≡ verdict_answer (verdict_of verdict) };

    fn from(verdict: Verdict) -> VerdictAnswer {
        match verdict {
            Ok(()) => VerdictAnswer {
                number: 0,
                accident_year: 0,
                development_year: 0,
            },
            Err(refusal) => VerdictAnswer {
                number: i64::from(refusal.question.number()),
                accident_year: refusal.place.accident_year,
                development_year: refusal.place.development_year,
            },
        }
    }
}

// A single cell, in millionths; the figures are 0 where it is refused. In C: juniperprow_cell.
#[repr(C)]
#[derive(Clone, Copy)]
pub struct CellAnswer {
    pub verdict: VerdictAnswer,
    pub payment: i64,
    pub adjustment: i64,
    pub outstanding: i64,
}

impl From<Result<Movement, Refusal>> for CellAnswer {
    ghost from_gives = { λ cell answer. answer ≡ cell_answer (cell_of cell) };

    fn from(cell: Result<Movement, Refusal>) -> CellAnswer {
        match cell {
            Ok(movement) => CellAnswer {
                verdict: VerdictAnswer::from(Ok(())),
                payment: movement.payment.0,
                adjustment: movement.adjustment.0,
                outstanding: movement.outstanding.0,
            },
            Err(refusal) => CellAnswer {
                verdict: VerdictAnswer::from(Err(refusal)),
                payment: 0,
                adjustment: 0,
                outstanding: 0,
            },
        }
    }
}

// Fills both answer lists, and answers the verdict. A refused call leaves zeros throughout both.
pub fn juniperprow_reserve<'a>(
    years: i64,
    cut: i64,
    payments: &'a [i64],
    adjustments: &'a [i64],
    weights: &'a [i64],
    openings: &'a [i64],
    future: &mut [i64],
    reserves: &mut [i64],
) -> VerdictAnswer
    ensures { ReserveAnswered
        (triangle_lent years cut payments.now adjustments.now weights.now openings.now)
        (length future.old) (length reserves.old) result future.new reserves.new }
{
    let triangle = Triangle {
        years,
        cut,
        payments,
        adjustments,
        weights,
        openings,
    };
    VerdictAnswer::from(reserve(triangle, future, reserves))
}

// The verdict on one unseen cell alone, and its three figures. A refused cell holds zeros.
pub fn juniperprow_single_cell<'a>(
    years: i64,
    cut: i64,
    payments: &'a [i64],
    adjustments: &'a [i64],
    weights: &'a [i64],
    openings: &'a [i64],
    accident_year: i64,
    development_year: i64,
) -> CellAnswer
    ensures { CellAnswered
        (triangle_lent years cut payments.now adjustments.now weights.now openings.now)
        accident_year development_year result }
{
    let triangle = Triangle {
        years,
        cut,
        payments,
        adjustments,
        weights,
        openings,
    };
    let cell = Place {
        accident_year,
        development_year,
    };
    CellAnswer::from(single_cell(triangle, cell))
}

// The verdict on the row of an accident year, whichever list it is taken from.
pub fn juniperprow_row_verdict<'a>(
    years: i64,
    payments: &'a [i64],
    adjustments: &'a [i64],
    accident_year: i64,
) -> VerdictAnswer
    ensures { RowAnswered years payments.now adjustments.now accident_year result }
{
    let named = AmountList::Payments;
    VerdictAnswer::from(row_verdict(years, payments, adjustments, named, accident_year))
}
