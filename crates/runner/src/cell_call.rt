// One unseen cell alone, by the call of a host, which is handed zeros where it is refused.
use crate::printing::{print_amount, print_verdict, print_whether};
use juniperprow::juniperprow_single_cell;
use lent::Triangle;

// Prints the verdict, and the cell's figures or whether they are zeros.
pub(crate) fn try_cell(rt: &impl Print, triangle: Triangle<'_>, call_numbers: [i64; 3]) {
    let [accident_year, development_year, _] = call_numbers;
    let cell = juniperprow_single_cell(
        triangle.years,
        triangle.cut,
        triangle.payments,
        triangle.adjustments,
        triangle.weights,
        triangle.openings,
        accident_year,
        development_year,
    );
    print_verdict(rt, cell.verdict);
    if cell.verdict.number == 0 {
        print_amount(rt, b", payment ", cell.payment);
        print_amount(rt, b", adjustment ", cell.adjustment);
        print_amount(rt, b", outstanding ", cell.outstanding);
    } else {
        let zeros = (cell.payment == 0) & (cell.adjustment == 0) & (cell.outstanding == 0);
        print_whether(rt, zeros, b"all zeros");
    }
}
