// Example 1 of the 2008 paper: its tables 4 and 5, with weights 1, against the last column of its table 6.
// That column is one reserve for both kinds: the oldest year ends with nothing outstanding, so that the paid-based and the incurred-based reserve agree.
use crate::example_1_tables::{
    CUMULATED_PAYMENTS, CUMULATED_REPORTED_AMOUNTS, RESERVES, ROW_STARTS,
};
use crate::printing::{print, print_amount, print_number, print_verdict, print_whether};
use calls::reserve::reserve;
use exact_sums::exact::difference;
use juniperprow::VerdictAnswer;
use lent::Triangle;
use verdicts::limits::from_to;

pub(crate) fn compare(rt: &impl Print) {
    let payments = differences(CUMULATED_PAYMENTS);
    let adjustments = differences(CUMULATED_REPORTED_AMOUNTS);
    let mut future = [0; 135];
    let mut reserves = [0; 30];
    let triangle = Triangle {
        years: 10,
        cut: 1,
        payments: &payments,
        adjustments: &adjustments,
        weights: &[1; 45],
        openings: &[],
    };
    let verdict = reserve(triangle, &mut future, &mut reserves);
    print(rt, b"Example 1: ");
    print_verdict(rt, VerdictAnswer::from(verdict));
    print(rt, b"\n");
    print_years(rt, reserves);
}

// A cumulated triangle of ten accident years, row after row, as what each year adds.
fn differences(cumulated: [i64; 55]) -> [i64; 55] {
    let mut increments = cumulated;
    let later = increments.iter_mut().enumerate().skip(1);
    for ((at, increment), before) in later.zip(&cumulated) {
        if !ROW_STARTS.contains(&at) {
            *increment = difference(*increment, *before).unwrap_or(0);
        }
    }
    increments
}

fn print_years(rt: &impl Print, reserves: [i64; 30]) {
    let paid = reserves.iter().step_by(3);
    for (i, (paper, computed)) in (1..11).zip(RESERVES.iter().zip(paid)) {
        print_year(rt, i, *paper, *computed);
    }
}

// The paper's reserve, the computed paid-based reserve, and whether they are within 10 units.
fn print_year(rt: &impl Print, accident_year: i64, paper: i64, computed: i64) {
    print_number(rt, b"Example 1, accident year ", accident_year);
    print_amount(rt, b": paper ", paper);
    print_amount(rt, b", computed ", computed);
    print_whether(rt, within_10(paper, computed), b"within 10");
    print(rt, b"\n");
}

fn within_10(paper: i64, computed: i64) -> bool {
    difference(paper, computed).is_some_and(|apart| from_to(-10_000_000, 10_000_000, apart))
}
