// Where a cell's figures stand in the lists.
ghost use Rattle.std.specs.Prelude.{◌≡◌, ◌+◌, ◌-◌, ◌≤◌, ◌<◌, pos};
ghost use Rattle.method.specs.Limits.{most_accident_years};
ghost use Rattle.method.specs.Triangle.{cell};
ghost use Rattle.method.specs.AnswerPlaces.{cell_figure, year_figure};
ghost use Rattle.completed.specs.Figures.{future_place, reserve_place};

use crate::square::Cell;
use lists::number_at;
use verdicts::lengths::{cells_before, future_length};

// The three figures of an unseen cell in the future list.
#[derive(Clone, Copy)]
pub enum FutureFigure {
    Payment,
    Adjustment,
    Outstanding,
}

impl FutureFigure {
    // Its place among the three, from 0 on. The places of ReserveFigure are those of another list: a trait for both would be longer than the two.
    fn place(self) -> usize
        ensures { (result ≡ future_place self) × (result < 3) }
    {
        self as usize
    }
}

// The three figures of an accident year in the reserve list.
#[derive(Clone, Copy)]
pub enum ReserveFigure {
    Paid,
    Incurred,
    Closing,
}

impl ReserveFigure {
    // Its place among the three, from 0 on.
    fn place(self) -> usize
        ensures { (result ≡ reserve_place self) × (result < 3) }
    {
        self as usize
    }
}

impl Cell {
    // This cell in a list whose rows have n, n − 1, … cells; 0 where the list has ended.
    #[tactic(auto, using(integers::proofs::MachineArithmetic::held, method::proofs::Positions::row_inside, verdicts::proofs::Counts::few_cells, crate::proofs::PlacesInLists::cell_at_place))]
    pub fn number_in(self, list: &[i64]) -> i64
        ensures { result ≡ cell (pos 0) self.n list.now self.accident_year self.development_year }
    {
        let start = cells_before(self.n, self.accident_year - 1);
        number_at(list, start + (self.development_year - 1))
    }

    // One of the three figures of this cell, which is unseen, in the future list; 0 where the list has ended.
    #[tactic(auto, using(integers::proofs::MachineArithmetic::held, crate::proofs::PlacesInLists::future_figure_at_place))]
    pub(crate) fn figure_in(self, future: &[i64], figure: FutureFigure) -> i64
        requires { self.n + 1 < self.accident_year + self.development_year }
        ensures { result ≡ cell_figure self.n future.now (future_place figure) self.accident_year (self.development_year - 1) }
    {
        // The rows before it are as long as the future list of the accident years before its own.
        let start = future_length(self.accident_year - 1);
        let before = 3 * (self.accident_year + self.development_year - self.n - 2);
        number_at(future, start + before + figure.place())
    }
}

// One of the three figures of accident year i in the reserve list; 0 where the list has ended.
#[tactic(auto, using(integers::proofs::MachineArithmetic::held), unfolding(method::specs::AnswerPlaces::year_figure))]
pub fn reserve_at(reserves: &[i64], figure: ReserveFigure, i: usize) -> i64
    requires { i ≤ most_accident_years }
    ensures { result ≡ year_figure reserves.now (reserve_place figure) i }
{
    number_at(reserves, 3 * i.saturating_sub(1) + figure.place())
}
