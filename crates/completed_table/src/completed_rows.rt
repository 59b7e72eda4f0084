// The completed triangle: observed and projected payments, adjustments and outstandings, in parts of at most 120 bytes a line.
ghost use Rattle.std.specs.Prelude.{◌≡◌, ◌/◌, ◌+◌, ◌≤◌, ◌<◌, length};
ghost use Rattle.method.specs.Limits.{most_accident_years};
ghost use Rattle.printed.specs.Line.{LineIs, After};
ghost use Rattle.printed.specs.Entries.{entry};
ghost use Rattle.completed_table.specs.CompletedRows as meaning;
ghost use Rattle.completed_table.specs.CompletedRows.{CellShown, RowShown, RowWidthIs, ColumnIs};

use completed::places::FutureFigure;
use completed::shown::{CompletedLists, Shown};
use completed::square::Cell;
use printed::columns::widest;
use printed::counts::signed;
use printed::entries::label;
use printed::line::Line;
use written_figures::writing::{amount, whole};

// The three tables of a completed triangle.
#[derive(Clone, Copy)]
pub enum Table {
    Payments,
    Adjustments,
    Outstandings,
}

// The line above a table.
pub fn table_title(table: Table) -> Line
    ensures { LineIs (meaning.table_title table) result }
{
    match table {
        Table::Payments => Line::of(b"Payments of the year, in units (* projected)"),
        Table::Adjustments => Line::of(b"Adjustments of the year, in units (* projected)"),
        Table::Outstandings => {
            Line::of(b"Outstandings at the end of the year, in units (* projected)")
        }
    }
}

// The last development year of the part that follows `before` years: as many as stay within 120 bytes, and one at least.
#[tactic(auto, unfolding(crate::specs::CompletedRows::last_in_part))]
pub fn last_in_part(n: usize, before: usize, column: usize) -> usize
    requires { (before < n) × (n ≤ most_accident_years) }
    ensures { (before < result) × (result ≤ n) × (result ≡ meaning.last_in_part n before column) }
{
    n.min(before + years_in_part(column).max(1))
}

// The accident years take 13 bytes, and each column two spaces before it.
fn years_in_part(column: usize) -> usize
    ensures { result ≡ 107 / (column + 2) }
{
    107 / column.saturating_add(2)
}

// A part of the tables: its development years, after those that are before it and up to the last, and the width of its columns.
#[derive(Clone, Copy)]
pub struct Part {
    pub before: usize,
    pub last: usize,
    pub column: usize,
}

// The heading of a part: its development years.
pub fn years_heading(part: Part) -> Line
    requires { part.last ≤ most_accident_years }
    ensures { LineIs (meaning.years_heading part.before part.last part.column) result }
{
    let mut line = Line::of(b"accident year");
    for k in part.before..part.last {
        line = line.with_entry(whole(signed(k + 1)).text(), part.column);
    }
    line
}

// One of the tables, of the triangle of n accident years that these lists make.
#[derive(Clone, Copy)]
pub struct CompletedTable<'a> {
    pub table: Table,
    pub n: usize,
    pub lists: CompletedLists<'a>,
    ghost few_years: { n ≤ most_accident_years },
}

impl CompletedTable<'_> {
    // The row of accident year i in a part.
    pub fn row(self, i: usize, part: Part) -> Line
        requires { (1 ≤ i) × (i ≤ self.n) × (part.last ≤ self.n) }
        ensures { RowShown self.entry.n self.entry.lists self.entry.table i part.before part.last part.column result }
    {
        let mut line = label(i, 13);
        for k in part.before..part.last {
            let cell = Cell {
                n: self.n,
                accident_year: i,
                development_year: k + 1,
            };
            line = with_shown_entry(line, self.shown_in(cell), part.column);
        }
        line
    }

    // The width of the widest entry. No heading of a column is as wide as a projected figure.
    #[tactic(auto, unfolding(crate::specs::CompletedRows::completed_column))]
    pub fn column(self) -> usize
        ensures { ColumnIs self.entry.n self.entry.lists self.entry.table result }
    {
        widest(0, 1..self.n + 1, |i| self.widest_in_row(i))
    }

    #[tactic(auto, unfolding(crate::specs::CompletedRows::row_width))]
    fn widest_in_row(self, i: usize) -> usize
        requires { (1 ≤ i) × (i ≤ self.n) }
        ensures { RowWidthIs self.entry.n self.entry.lists self.entry.table i result }
    {
        widest(
            0,
            1..self.n + 1,
            |k|
                requires { (1 ≤ i) × (i ≤ self.n) × (1 ≤ k) × (k ≤ self.n) }
            {
                let cell = Cell {
                    n: self.n,
                    accident_year: i,
                    development_year: k,
                };
                shown_width(self.shown_in(cell))
            },
        )
    }

    // What stands in a cell. A table is a kind that is printed too, and no step to run: each arm names what it is read from.
    fn shown_in(self, cell: Cell) -> Shown
        ensures { CellShown cell.n self.entry.lists self.entry.table cell.accident_year cell.development_year result }
    {
        let lists = self.lists;
        match self.table {
            Table::Payments => lists.amount_shown(
                lists.observed.payments,
                FutureFigure::Payment,
                cell,
            ),
            Table::Adjustments => lists.amount_shown(
                lists.observed.adjustments,
                FutureFigure::Adjustment,
                cell,
            ),
            Table::Outstandings => lists.outstanding_shown(cell),
        }
    }
}

// A line with what is shown in a cell as an entry.
fn with_shown_entry(line: Line, shown: Shown, column: usize) -> Line
    ensures { After line (entry column (meaning.shown_entry shown)) result }
{
    match shown {
        Shown::Missing => line.with_entry(b"?", column),
        Shown::Observed(units) => line.with_entry(whole(units).text(), column),
        Shown::Projected(millionths) => {
            line.with_marked_entry(b"*", amount(millionths).text(), column)
        }
    }
}

// The width of that entry, with its mark.
fn shown_width(shown: Shown) -> usize
    ensures { result ≡ length (meaning.shown_entry shown) }
{
    match shown {
        Shown::Missing => 1,
        Shown::Observed(units) => whole(units).width,
        Shown::Projected(millionths) => amount(millionths).width + 1,
    }
}
