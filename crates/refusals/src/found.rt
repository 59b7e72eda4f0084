// What was lent, and what stands at the place of a refusal: the numbers that its sentence speaks of.
ghost use Rattle.std.specs.Prelude.{◌≡◌, ◌≤◌};
ghost use Rattle.method.specs.Limits.{most_accident_years};
ghost use Rattle.lent.specs.Triangles.{triangle_of};
ghost use Rattle.refusals.specs.Counts.{count_of, count_or_0};
ghost use Rattle.refusals.specs.Found.{lent_of, CellIn, OutstandingIn, FoundAt};

use crate::counts::{count_of, count_or_0};
use cells::one_list::amount_right;
use completed::outstanding::ObservedLists;
use completed::square::cell_of_square;
use lent::Triangle;
use verdicts::verdict::Place;

// What was lent: the number of accident years, the cut, the cell that is asked for, and the lengths of the lists.
#[derive(Clone, Copy)]
pub struct Lent {
    pub years: i64,
    pub cut: i64,
    pub asked: Option<Place>,
    pub payments: usize,
    pub adjustments: usize,
    pub weights: usize,
    pub openings: usize,
}

impl Lent {
    // A triangle, and the cell that is asked for.
    pub fn of(triangle: Triangle<'_>, asked: Option<Place>) -> Lent
        ensures { result ≡ lent_of (triangle_of triangle.entry) asked }
    {
        Lent {
            years: triangle.years,
            cut: triangle.cut,
            asked,
            payments: triangle.payments.len(),
            adjustments: triangle.adjustments.len(),
            weights: triangle.weights.len(),
            openings: triangle.openings.len(),
        }
    }
}

// What stands at a place. The flags stand beside the numbers, and no enum holds one of them: each number is promised, whichever a sentence takes.
#[derive(Clone, Copy)]
pub struct Found {
    pub weight: i64,
    pub payment: i64,
    pub adjustment: i64,
    pub outstanding: i64,
    // whether question 5 accepts the payment, and whether the outstanding is an opening
    pub payment_right: bool,
    pub opening: bool,
}

// What stands at a place of a triangle; zeros where it is no cell.
pub fn found_at(triangle: Triangle<'_>, place: Place) -> Found
    ensures { FoundAt (count_of triangle.entry.years) (count_or_0 triangle.entry.cut)
        triangle.entry.payments.now triangle.entry.adjustments.now triangle.entry.weights.now triangle.entry.openings.now
        (count_of place.accident_year) (count_of place.development_year) result }
{
    let n = count_of(triangle.years);
    let cut = count_or_0(triangle.cut);
    let i = count_of(place.accident_year);
    let k = count_of(place.development_year);
    let lists = ObservedLists::from(triangle);
    let payment = cell_in(n, triangle.payments, i, k);
    Found {
        weight: cell_in(n.saturating_sub(1), triangle.weights, i, k),
        payment,
        adjustment: cell_in(n, triangle.adjustments, i, k),
        outstanding: outstanding_in(n, lists, i, k),
        payment_right: amount_right(cut, i, k, payment),
        opening: i + k == cut,
    }
}

// Cell (i, k) of a list whose rows have n, n − 1, … cells; 0 where it is no cell of them.
// This and the next ask of n, and of nothing else that they take: a struct of n and a list would ask the same once more.
fn cell_in(n: usize, list: &[i64], i: usize, k: usize) -> i64
    requires { n ≤ most_accident_years }
    ensures { CellIn n list.now i k result }
{
    cell_of_square(n, i, k).map_or(0, |cell| cell.number_in(list))
}

// A match: as map_or with a closure, the proof of the outstanding's contract did not close, since the cell's years stand in a record there.
fn outstanding_in(n: usize, lists: ObservedLists<'_>, i: usize, k: usize) -> i64
    requires { n ≤ most_accident_years }
    ensures { OutstandingIn n lists.entry.payments.now lists.entry.adjustments.now lists.entry.openings.now i k result }
{
    match cell_of_square(n, i, k) {
        Some(cell) => lists.outstanding_at(cell),
        None => 0,
    }
}
