// One accident year's row.
use crate::printing::{print, print_number, print_verdict, print_whether};
use juniperprow::VerdictAnswer;
use lent::Triangle;
use rows::{AmountList, row, row_verdict};

// Prints the verdict, and the row or whether it is empty.
pub(crate) fn try_row(
    rt: &impl Print,
    triangle: Triangle<'_>,
    named: AmountList,
    accident_year: i64,
) {
    let years = triangle.years;
    let payments = triangle.payments;
    let adjustments = triangle.adjustments;
    let numbers = row(years, payments, adjustments, named, accident_year);
    let verdict = row_verdict(years, payments, adjustments, named, accident_year);
    print_verdict(rt, VerdictAnswer::from(verdict));
    match verdict {
        Ok(()) => print_numbers(rt, numbers),
        Err(_) => print_whether(rt, numbers.is_empty(), b"empty"),
    }
}

fn print_numbers(rt: &impl Print, numbers: &[i64]) {
    print(rt, b",");
    for number in numbers {
        print_number(rt, b" ", *number);
    }
}
