// The lengths of a triangle's lists. Each asks of the n that it takes: a type of such an n would be made wherever a length is wanted.
ghost use Rattle.std.specs.Prelude.{◌≡◌, ◌≤◌};
ghost use Rattle.method.specs.Limits.{most_accident_years};
ghost use Rattle.method.specs.Triangle as meaning;

use crate::limits::ACCIDENT_YEARS;

// Room for a payment of every seen cell of the largest triangle, and for its weights.
pub const SEEN_CELLS: usize = ACCIDENT_YEARS * (ACCIDENT_YEARS + 1) / 2;

pub const WEIGHTED_CELLS: usize = ACCIDENT_YEARS * (ACCIDENT_YEARS - 1) / 2;

// Room for both answer lists of the largest triangle, which has as many unseen cells as weights.
pub const FUTURE_FIGURES: usize = 3 * WEIGHTED_CELLS;

pub const RESERVE_FIGURES: usize = 3 * ACCIDENT_YEARS;

// Of the payments, and of the adjustments: a number for each seen cell.
#[tactic(auto, using(crate::proofs::Counts::few_cells))]
pub fn amounts_length(n: usize) -> usize
    requires { n ≤ most_accident_years }
    ensures { result ≡ meaning.amounts_length n }
{
    n * (n + 1) / 2
}

// Of the weights, which the last seen cell of each accident year has none of.
#[tactic(auto, using(crate::proofs::Counts::few_cells))]
pub fn weights_length(n: usize) -> usize
    requires { n ≤ most_accident_years }
    ensures { result ≡ meaning.weights_length n }
{
    n * n.saturating_sub(1) / 2
}

// Of the future list: three figures for each unseen cell.
pub fn future_length(n: usize) -> usize
    requires { n ≤ most_accident_years }
    ensures { result ≡ meaning.future_length n }
{
    3 * weights_length(n)
}

// Of the reserve list: three figures for each accident year.
pub fn reserves_length(n: usize) -> usize
    requires { n ≤ most_accident_years }
    ensures { result ≡ meaning.reserves_length n }
{
    3 * n
}

// Of the first r rows of a list whose rows have n, n − 1, … cells: where the next row begins.
pub fn cells_before(n: usize, r: usize) -> usize
    requires { (r ≤ n) × (n ≤ most_accident_years) }
    ensures { result ≡ meaning.cells_before n r }
{
    amounts_length(n) - amounts_length(n - r)
}
