// The ratios: the three sums of every development year, and the last observed outstandings.
#![tactic(auto)]

ghost use Rattle.std.specs.Prelude.{◌≡◌, ◌+ℤ◌, ◌*ℤ◌, ◌-◌};
ghost use Rattle.lent.specs.Triangles.{triangle_of};
ghost use Rattle.ratios.specs.Ratios.{Readable, DevelopmentRead, FirstYear, FirstOutstandings, DevelopmentYearInput, partial_sums, MovedOn, sums_of, RowAddable, with_row, Summable};

use lent::Triangle;
use outstandings::{next_outstanding, opening_of};
use verdicts::lengths::cells_before;
use verdicts::limits::{ACCIDENT_YEARS, DEVELOPMENT_YEARS};

// The sums of a development year k, over the accident years i from 1 to n − k.
#[derive(Clone, Copy)]
pub struct Sums {
    // P(k), of w(i, k) × S(i, k + 1)
    pub payments: i64,
    // Q(k), of w(i, k) × T(i, k + 1)
    pub adjustments: i64,
    // D(k), of w(i, k) × R(i, k)
    pub exposure: i64,
}

pub const NO_SUMS: Sums = Sums {
    payments: 0,
    adjustments: 0,
    exposure: 0,
};

// The ratios of development year k, as its sums, stand at k − 1; the last observed outstanding of accident year i, in whole units, at i − 1.
// What lies beyond the years of the triangle holds zeros: arrays of the largest size, since the library uses no heap.
#[derive(Clone, Copy)]
pub struct Development {
    pub ratios: [Sums; DEVELOPMENT_YEARS],
    pub outstandings: [i64; ACCIDENT_YEARS],
}

// The ratios and last observed outstandings of a triangle that has passed questions 1 to 7.
pub fn development_of(triangle: Triangle<'_>) -> Development
    requires { Readable (triangle_of triangle) }
    ensures { DevelopmentRead (triangle_of triangle.entry) result }
{
    let n = triangle.years as usize;
    let mut ratios = [NO_SUMS; DEVELOPMENT_YEARS];
    let mut outstandings = first_outstandings(n, triangle);
    // By k, which is asked for too: a zip with the years would say no more.
    for k in 1..n {
        ratios[k - 1] = development_year(n, k, triangle, &mut outstandings);
    }
    Development {
        ratios,
        outstandings,
    }
}

// The outstandings of development year 1. Here and below n stands beside its triangle, which has it as any i64: it is cast once.
fn first_outstandings(n: usize, triangle: Triangle<'_>) -> [i64; ACCIDENT_YEARS]
    requires { FirstYear n triangle.payments.now triangle.adjustments.now triangle.openings.now }
    ensures { FirstOutstandings n triangle.entry.payments.now triangle.entry.adjustments.now triangle.entry.openings.now result }
{
    let mut outstandings = [0; ACCIDENT_YEARS];
    // By r, which says where a row begins and which opening is its own.
    for r in 0..n {
        let start = cells_before(n, r);
        outstandings[r] = next_outstanding(
            opening_of(triangle.openings, r),
            triangle.payments[start],
            triangle.adjustments[start],
        );
    }
    outstandings
}

// The sums of development year k from the outstandings of that year, which move on to those of year k + 1.
fn development_year(
    n: usize,
    k: usize,
    triangle: Triangle<'_>,
    outstandings: &mut [i64; ACCIDENT_YEARS],
) -> Sums
    requires { DevelopmentYearInput n k triangle.payments.now triangle.adjustments.now triangle.weights.now outstandings.old }
    ensures result_value { sums_of result ≡ partial_sums n k triangle.entry.payments.now triangle.entry.adjustments.now triangle.entry.weights.now outstandings.old (n - k) }
    ensures moved_on { MovedOn n k triangle.entry.payments.now triangle.entry.adjustments.now outstandings.old outstandings.new }
{
    let mut sums = NO_SUMS;
    // Each row is entered at year k of its weights and at year k + 1 of its amounts. The weights have a row less.
    // Both are moved on here: of `cells_before`, once a cell, it would be harder to see that they go down a column.
    let mut weight_at = k - 1;
    let mut amount_at = k;
    for r in 0..n - k {
        let payment = triangle.payments[amount_at];
        let adjustment = triangle.adjustments[amount_at];
        let outstanding = outstandings[r];
        sums = sums.with_row(
            triangle.weights[weight_at],
            payment,
            adjustment,
            outstanding,
        );
        outstandings[r] = next_outstanding(outstanding, payment, adjustment);
        weight_at += n - 1 - r;
        amount_at += n - r;
    }
    sums
}

impl Sums {
    // The sums with one accident year more.
    fn with_row(self, weight: i64, payment: i64, adjustment: i64, outstanding: i64) -> Sums
        requires { RowAddable (sums_of self) weight payment adjustment outstanding }
        ensures { sums_of result ≡ with_row (sums_of self) weight payment adjustment outstanding }
    {
        Sums {
            payments: plus(self.payments, weight, payment),
            adjustments: plus(self.adjustments, weight, adjustment),
            exposure: plus(self.exposure, weight, outstanding),
        }
    }
}

fn plus(sum: i64, weight: i64, amount: i64) -> i64
    requires { Summable sum weight amount }
    ensures { result ≡ sum +ℤ weight *ℤ amount }
{
    sum + weight * amount
}
