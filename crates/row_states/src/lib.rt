// The state of an accident year as it is projected, year by year.
#![tactic(auto)]

ghost use Rattle.std.specs.Prelude.{◌≡◌, ◌+◌, ◌-◌, ◌<◌, pos, ◌+ℤ◌, ◌≤ℤ◌};
ghost use Rattle.method.specs.Limits.{greatest_outstanding};
ghost use Rattle.method.specs.ProjectedYear.{next_year};
ghost use Rattle.ratios.specs.Ratios.{sums_of};
ghost use Rattle.prepared_years.specs.Prepared.{year_sums};
ghost use Rattle.projection.specs.Year.{OutstandingInLimit, year_or_too_large};
ghost use Rattle.row_states.specs.States.{state_before, YearToProject, YearAddable, FigureAddable, with_year, first_of};

use prepared_years::year::PreparedYear;
use projection::{Movement, next_year};
use share::millionths::Millionths;

// An accident year after some of its projected years: how many, the outstanding at their end, its reserves up to there,
// and the payment of the first of them. Where there is none yet it is 0, as document 01 reads an entry beyond a list's end: its one reader would make a 0 of an Option.
#[derive(Clone, Copy)]
pub struct RowState {
    pub projected: usize,
    pub outstanding: Millionths,
    pub paid: Millionths,
    pub incurred: Millionths,
    pub first_payment: Millionths,
}

impl RowState {
    // An accident year before its first projected year, whose last observed outstanding is this, in whole units.
    pub fn first(outstanding: i64) -> RowState
        requires { (pos 0 ≤ℤ outstanding) × (outstanding ≤ℤ greatest_outstanding) }
        ensures { result ≡ state_before outstanding }
    {
        let outstanding = Millionths::from_units(outstanding);
        RowState {
            projected: 0,
            outstanding,
            paid: Millionths(0),
            incurred: outstanding,
            first_payment: Millionths(0),
        }
    }

    // Where the year stands that follows the projected ones of accident year i, among the n − 1 of a triangle:
    // that of development year k, which leads to k + 1, at k − 1.
    pub fn place_of_next_year(self, n: usize, i: usize) -> usize
        requires { YearToProject n i self }
        ensures place { result ≡ n - i + self.projected }
        ensures inside { result + 1 < n }
    {
        n - i + self.projected
    }

    // The figures of the year that follows the projected ones, by its ratios; `None` where one of them passes the limit of question 9:
    // both shares are compared with it in `rounded_share`, the outstanding in `projection::next_year`.
    pub fn next_year(self, year: PreparedYear) -> Option<Movement>
        requires { OutstandingInLimit self.outstanding.0 × (0 < year.exposure) }
        ensures { result ≡ year_or_too_large (next_year self.outstanding.0 (sums_of (year_sums year))) }
    {
        next_year(self.outstanding, year)
    }

    // The state with these figures of one year more.
    pub fn with_year(self, movement: Movement) -> RowState
        requires { YearAddable self movement }
        ensures { result ≡ with_year self movement }
    {
        RowState {
            projected: self.projected + 1,
            outstanding: movement.outstanding,
            paid: plus(self.paid, movement.payment),
            incurred: plus(self.incurred, movement.adjustment),
            first_payment: first_of(self.projected, movement.payment, self.first_payment),
        }
    }
}

fn plus(sum: Millionths, figure: Millionths) -> Millionths
    requires { FigureAddable sum.0 figure.0 }
    ensures { result.0 ≡ sum.0 +ℤ figure.0 }
{
    Millionths(sum.0 + figure.0)
}

// The payment of the first projected year: that of the year at hand where none is behind.
fn first_of(projected: usize, payment: Millionths, first: Millionths) -> Millionths
    ensures { result ≡ first_of projected payment first }
{
    if projected == 0 { payment } else { first }
}
