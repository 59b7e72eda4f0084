// The table of reserves by accident year, with totals.
ghost use Rattle.std.specs.Prelude.{◌≡◌, ◌≤◌, length};
ghost use Rattle.completed.specs.Figures.{reserve_place};
ghost use Rattle.method.specs.Limits.{most_accident_years};
ghost use Rattle.printed.specs.Line.{LineIs};
ghost use Rattle.reserve_table.specs.ReserveRows as meaning;

use crate::totals::{total_of, total_width, with_total};
use completed::places::{ReserveFigure, reserve_at};
use lists::number_at;
use printed::columns::widest;
use printed::entries::label;
use printed::line::Line;
use written_figures::writing::{amount, whole};

pub fn reserves_title() -> Line
    ensures { LineIs meaning.reserves_title result }
{
    Line::of(b"Reserves in units")
}

pub fn reserves_heading(column: usize) -> Line
    ensures { LineIs (meaning.reserves_heading column) result }
{
    Line::of(b"accident year")
        .with_entry(b"last outstanding", column)
        .with_entry(b"paid reserve", column)
        .with_entry(b"incurred reserve", column)
        .with_entry(b"closing outstanding", column)
}

// What the table has of its accident years: the last observed outstanding of each, in whole units, and the reserve list, in millionths.
#[derive(Clone, Copy)]
pub struct ReserveTable<'a> {
    pub outstandings: &'a [i64],
    pub reserves: &'a [i64],
    ghost few_years: { length outstandings.now ≤ most_accident_years },
}

impl ReserveTable<'_> {
    // The row of accident year i. 13 is the width of the first heading.
    pub fn row(&self, i: usize, column: usize) -> Line
        requires { (1 ≤ i) × (i ≤ most_accident_years) }
        ensures { LineIs (meaning.reserves_row self.now.outstandings.now self.now.reserves.now i column) result }
    {
        let paid = amount(reserve_at(self.reserves, ReserveFigure::Paid, i));
        let incurred = amount(reserve_at(self.reserves, ReserveFigure::Incurred, i));
        let closing = amount(reserve_at(self.reserves, ReserveFigure::Closing, i));
        label(i, 13)
            .with_entry(whole(number_at(self.outstandings, i - 1)).text(), column)
            .with_entry(paid.text(), column)
            .with_entry(incurred.text(), column)
            .with_entry(closing.text(), column)
    }

    // The last row: the total of each column.
    pub fn totals_row(&self, column: usize) -> Line
        ensures { LineIs (meaning.totals_row (length self.now.outstandings.now) self.now.outstandings.now self.now.reserves.now column) result }
    {
        let title = Line::of(b"        total");
        let paid = self.reserves_total(ReserveFigure::Paid);
        let incurred = self.reserves_total(ReserveFigure::Incurred);
        let closing = self.reserves_total(ReserveFigure::Closing);
        let to_observed = with_total(title, self.outstandings_total(), whole, column);
        let to_paid = with_total(to_observed, paid, amount, column);
        let to_incurred = with_total(to_paid, incurred, amount, column);
        with_total(to_incurred, closing, amount, column)
    }

    fn outstandings_total(&self) -> Option<i64>
        ensures { result ≡ meaning.outstandings_total self.now.outstandings.now (length self.now.outstandings.now) }
    {
        total_of(0..self.outstandings.len(), |place| self.outstandings[place])
    }

    // The total of one of the three figures of the reserve list. This and its width are no one function with those of the outstandings: list, places and units are others.
    fn reserves_total(&self, figure: ReserveFigure) -> Option<i64>
        ensures { result ≡ meaning.reserves_total self.now.reserves.now (reserve_place figure) (length self.now.outstandings.now) }
    {
        total_of(
            1..self.outstandings.len() + 1,
            |i| reserve_at(self.reserves, figure, i),
        )
    }

    // The width of the widest entry: a figure, a total or the widest heading, which has 19 bytes.
    #[tactic(auto, unfolding(crate::specs::ReserveRows::reserves_column))]
    pub fn column(&self) -> usize
        ensures { result ≡ meaning.reserves_column (length self.now.outstandings.now) self.now.outstandings.now self.now.reserves.now }
    {
        let observed = self.outstandings_width();
        let paid = self.reserves_width(ReserveFigure::Paid);
        let incurred = self.reserves_width(ReserveFigure::Incurred);
        let closing = self.reserves_width(ReserveFigure::Closing);
        observed.max(paid).max(incurred.max(closing).max(19))
    }

    #[tactic(auto, unfolding(crate::specs::ReserveRows::outstandings_width))]
    fn outstandings_width(&self) -> usize
        ensures { result ≡ meaning.outstandings_width self.now.outstandings.now (length self.now.outstandings.now) }
    {
        let total = total_width(self.outstandings_total(), whole);
        widest(
            total,
            0..self.outstandings.len(),
            |place| whole(self.outstandings[place]).width,
        )
    }

    #[tactic(auto, unfolding(crate::specs::ReserveRows::reserves_width))]
    fn reserves_width(&self, figure: ReserveFigure) -> usize
        ensures { result ≡ meaning.reserves_width self.now.reserves.now (reserve_place figure) (length self.now.outstandings.now) }
    {
        let total = total_width(self.reserves_total(figure), amount);
        widest(
            total,
            1..self.outstandings.len() + 1,
            |i| amount(reserve_at(self.reserves, figure, i)).width,
        )
    }
}
