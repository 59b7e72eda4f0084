// One accident year's seen figures, as the part of the lent list that they are.
#![tactic(auto)]

ghost use Rattle.std.specs.Prelude.{◌≡◌, ◌+◌, ◌-◌, ◌≤◌, pos, take, drop};
ghost use Rattle.method.specs.Limits.{most_accident_years};
ghost use Rattle.method.specs.Triangle.{cells_before};
ghost use Rattle.method.specs.Answers as meaning;
ghost use Rattle.method.specs.Demand1.{Demand1OfRow};
ghost use Rattle.verdicts.specs.Verdicts.{verdict_of};
ghost use Rattle.rows.specs.Rows.{amounts_of, RowInside, OwnPart, named_of, RowReturned};

use verdicts::lengths::{amounts_length, cells_before};
use verdicts::limits::from_to;
use verdicts::verdict::{Question, Verdict, asked};
use verdicts::years::question_1;

// The list that a call names.
#[derive(Clone, Copy, PartialEq, Eq)]
pub enum AmountList {
    Payments,
    Adjustments,
}

// The row of an accident year, as the part of the list that is named; empty where `row_verdict` refuses.
// What is lent stays flat, as the C interface lends it to `row_verdict`: a struct of n and both lists would be made for one call.
// Kept as no Result: document 01 wants a refused row empty, and its number and place from a second call.
pub fn row<'a>(
    years: i64,
    payments: &'a [i64],
    adjustments: &'a [i64],
    named: AmountList,
    accident_year: i64,
) -> &'a [i64]
    ensures { RowReturned years payments.entry adjustments.entry accident_year (amounts_of named) result }
{
    let list = named_list(payments, adjustments, named);
    match row_verdict(years, payments, adjustments, named, accident_year) {
        Ok(()) => row_of(list, years as usize, accident_year as usize),
        Err(_) => &list[..0],
    }
}

// Row i of a list whose rows have n, n − 1, … cells.
#[tactic(auto, using(crate::proofs::RowParts::ends_inside))]
fn row_of<'a>(list: &'a [i64], n: usize, i: usize) -> &'a [i64]
    requires { RowInside list.now n i }
    ensures result_value { result.now ≡ take (n + 1 - i) (drop (cells_before n (i - 1)) list.now) }
    ensures own_part { OwnPart list.entry (cells_before n (i - 1)) result }
{
    let start = cells_before(n, i - 1);
    let end = start + (n + 1 - i);
    &list[start..end]
}

// The verdict on `row` with the same arguments: questions 1, 3 of both lists, and 10. Which list is named makes no difference.
pub fn row_verdict<'a>(
    years: i64,
    payments: &'a [i64],
    adjustments: &'a [i64],
    named: AmountList,
    accident_year: i64,
) -> Verdict
    ensures whole { verdict_of result ≡ meaning.row_verdict years payments.now adjustments.now accident_year }
    ensures demand_1 { Demand1OfRow years payments.now adjustments.now accident_year (verdict_of result) }
{
    question_1(years)?;
    let right = both_lengths_right(years as usize, payments, adjustments);
    asked(right, Question::Lengths)?;
    asked(from_to(1, years, accident_year), Question::YearsAsked)
}

#[tactic(auto, unfolding(method::specs::Answers::both_lengths_right))]
fn both_lengths_right<'a>(n: usize, payments: &'a [i64], adjustments: &'a [i64]) -> bool
    requires { n ≤ most_accident_years }
    ensures { result ≡ meaning.both_lengths_right (pos n) payments.now adjustments.now }
{
    let amounts = amounts_length(n);
    (payments.len() == amounts) & (adjustments.len() == amounts)
}

fn named_list<'a>(payments: &'a [i64], adjustments: &'a [i64], named: AmountList) -> &'a [i64]
    ensures { result ≡ named_of payments.entry adjustments.entry (amounts_of named) }
{
    match named {
        AmountList::Payments => payments,
        AmountList::Adjustments => adjustments,
    }
}
