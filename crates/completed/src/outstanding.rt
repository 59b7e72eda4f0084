// The observed outstanding of a cell.
ghost use Rattle.std.specs.Prelude.{◌≡◌};
ghost use Rattle.completed.specs.Completed.{outstandings_of, OutstandingAt, MovedTo};

use crate::square::Cell;
use exact_sums::exact::{difference, sum};
use lent::Triangle;
use outstandings::opening_of;

// The lists that an observed outstanding is made of.
#[derive(Clone, Copy)]
pub struct ObservedLists<'a> {
    pub payments: &'a [i64],
    pub adjustments: &'a [i64],
    pub openings: &'a [i64],
}

impl<'a> From<Triangle<'a>> for ObservedLists<'a> {
    ghost use Rattle.std.specs.Prelude.{◌≡◌};

    ghost from_gives = { λ triangle lists. lists ≡ record { payments = triangle.payments; adjustments = triangle.adjustments; openings = triangle.openings } };

    fn from(triangle: Triangle<'a>) -> ObservedLists<'a> {
        ObservedLists {
            payments: triangle.payments,
            adjustments: triangle.adjustments,
            openings: triangle.openings,
        }
    }
}

impl ObservedLists<'_> {
    // The outstanding of a cell's accident year at the end of its development year, where the row is within the limits of questions 5 and 6.
    #[tactic(auto, using(integers::proofs::MachineArithmetic::held, crate::proofs::OutstandingsOfRow::before_first_year))]
    pub fn outstanding_at(self, cell: Cell) -> i64
        ensures { OutstandingAt (outstandings_of cell.n self.entry) cell.accident_year cell.development_year result }
    {
        let mut outstanding = opening_of(self.openings, cell.accident_year - 1);
        for before in 0..cell.development_year {
            let year = Cell {
                n: cell.n,
                accident_year: cell.accident_year,
                development_year: before + 1,
            };
            let payment = year.number_in(self.payments);
            let adjustment = year.number_in(self.adjustments);
            outstanding = moved(outstanding, payment, adjustment);
        }
        outstanding
    }
}

// outstanding − payment + adjustment, where neither step passes 64 bits; else some number.
#[tactic(auto, using(integers::proofs::MachineArithmetic::held, crate::proofs::OutstandingsOfRow::moved_exactly))]
fn moved(outstanding: i64, payment: i64, adjustment: i64) -> i64
    ensures { MovedTo outstanding payment adjustment result }
{
    let less = difference(outstanding, payment).unwrap_or(0);
    sum(less, adjustment).unwrap_or(0)
}
