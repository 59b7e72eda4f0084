// What a host links, for C: the calls of crate juniperprow under their own names. A list is a pointer and then a count.
// Each stands by itself, with its parameters one by one: the C interface needs it.
#![tactic(auto)]

ghost use Rattle.std.specs.Prelude.{length};
ghost use Rattle.juniperprow.specs.HostAnswers.{triangle_lent, workbook_lent, ReserveAnswered, WorkbookAnswered, CellAnswered, RowAnswered};

use juniperprow::{CellAnswer, VerdictAnswer};

// Fills both answer lists, and answers the verdict. A refused call leaves zeros throughout both.
#[unsafe(no_mangle)]
pub extern "C" fn juniperprow_reserve<'a>(
    years: i64,
    cut: i64,
    payments: &'a [i64],
    adjustments: &'a [i64],
    weights: &'a [i64],
    openings: &'a [i64],
    future: &mut [i64],
    reserves: &mut [i64],
) -> VerdictAnswer
    ensures { ReserveAnswered
        (triangle_lent years cut payments.now adjustments.now weights.now openings.now)
        (length future.old) (length reserves.old) result future.new reserves.new }
{
    juniperprow::juniperprow_reserve(
        years,
        cut,
        payments,
        adjustments,
        weights,
        openings,
        future,
        reserves,
    )
}

// Fills the future list and the reserves as pairs of floats, from a workbook's cells, and answers the verdict. A refused call leaves zeros throughout both.
#[unsafe(no_mangle)]
pub extern "C" fn juniperprow_workbook_reserve<'a>(
    years: i64,
    cut: i64,
    payment_kinds: &'a [u8],
    payments: &'a [f64],
    adjustment_kinds: &'a [u8],
    adjustments: &'a [f64],
    weights: &'a [i64],
    openings: &'a [i64],
    future: &mut [i64],
    reserve_pairs: &mut [f64],
) -> VerdictAnswer
    ensures { WorkbookAnswered
        (workbook_lent years cut payment_kinds.now payments.now adjustment_kinds.now adjustments.now
        weights.now openings.now)
        (length future.old) (length reserve_pairs.old) result future.new reserve_pairs.new }
{
    juniperprow::from_workbook::juniperprow_workbook_reserve(
        years,
        cut,
        payment_kinds,
        payments,
        adjustment_kinds,
        adjustments,
        weights,
        openings,
        future,
        reserve_pairs,
    )
}

// The verdict on one unseen cell alone, and its three figures. A refused cell holds zeros.
#[unsafe(no_mangle)]
pub extern "C" fn juniperprow_single_cell<'a>(
    years: i64,
    cut: i64,
    payments: &'a [i64],
    adjustments: &'a [i64],
    weights: &'a [i64],
    openings: &'a [i64],
    accident_year: i64,
    development_year: i64,
) -> CellAnswer
    ensures { CellAnswered
        (triangle_lent years cut payments.now adjustments.now weights.now openings.now)
        accident_year development_year result }
{
    juniperprow::juniperprow_single_cell(
        years,
        cut,
        payments,
        adjustments,
        weights,
        openings,
        accident_year,
        development_year,
    )
}

// The verdict on the row of an accident year, whichever list it is taken from.
#[unsafe(no_mangle)]
pub extern "C" fn juniperprow_row_verdict<'a>(
    years: i64,
    payments: &'a [i64],
    adjustments: &'a [i64],
    accident_year: i64,
) -> VerdictAnswer
    ensures { RowAnswered years payments.now adjustments.now accident_year result }
{
    juniperprow::juniperprow_row_verdict(years, payments, adjustments, accident_year)
}
