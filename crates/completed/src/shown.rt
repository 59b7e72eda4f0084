// What is shown in a cell.
ghost use Rattle.std.specs.Prelude.{◌≡◌};
ghost use Rattle.completed.specs.Figures.{future_place};
ghost use Rattle.completed.specs.Completed.{amount_in, OutstandingShown, outstandings_of};

use crate::outstanding::ObservedLists;
use crate::places::FutureFigure;
use crate::square::Cell;

// What was observed is in whole units, what is projected in millionths.
#[derive(Clone, Copy)]
pub enum Shown {
    Missing,
    Observed(i64),
    Projected(i64),
}

// What was lent and answered of a triangle, as a program shows it.
#[derive(Clone, Copy)]
pub struct CompletedLists<'a> {
    pub cut: usize,
    pub observed: ObservedLists<'a>,
    pub future: &'a [i64],
}

impl<'a> CompletedLists<'a> {
    // A payment or an adjustment, of its list and as a figure of the future list.
    #[tactic(auto, using(integers::proofs::MachineArithmetic::held), unfolding(crate::specs::Completed::amount_in))]
    pub fn amount_shown(self, list: &'a [i64], figure: FutureFigure, cell: Cell) -> Shown
        ensures { result ≡ amount_in cell.n self.entry.cut list.now self.entry.future.now (future_place figure) cell.accident_year cell.development_year }
    {
        let years = cell.accident_year + cell.development_year;
        if cell.n + 1 < years {
            return Shown::Projected(cell.figure_in(self.future, figure));
        }
        if years <= self.cut {
            return Shown::Missing;
        }
        Shown::Observed(cell.number_in(list))
    }

    // The outstanding at the end of the year. That of an opening's cell, whose years add up to the cut, is known.
    // No twin of the amounts: its first known cell is another, and it is promised only where its row is within the limits.
    #[tactic(auto, using(integers::proofs::MachineArithmetic::held))]
    pub fn outstanding_shown(self, cell: Cell) -> Shown
        ensures { OutstandingShown cell.n self.entry.cut
            (outstandings_of cell.n self.entry.observed)
            self.entry.future.now cell.accident_year cell.development_year result }
    {
        let years = cell.accident_year + cell.development_year;
        if cell.n + 1 < years {
            return Shown::Projected(cell.figure_in(self.future, FutureFigure::Outstanding));
        }
        if years < self.cut {
            return Shown::Missing;
        }
        Shown::Observed(self.observed.outstanding_at(cell))
    }
}
