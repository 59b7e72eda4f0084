// One unseen cell alone.
#![tactic(auto)]

ghost use Rattle.std.specs.Prelude.{◌≡◌, ◌+◌, ◌-◌, ◌<◌};
ghost use Rattle.method.specs.RunOff.{O, movement};
ghost use Rattle.method.specs.Verdicts.{accepted};
ghost use Rattle.method.specs.Questions.{question_1, cell_unseen};
ghost use Rattle.method.specs.Answers.{single_cell};
ghost use Rattle.method.specs.Demand1.{Demand1OfCell};
ghost use Rattle.method.specs.Demand3.{CellOfFuture};
ghost use Rattle.lent.specs.Triangles.{triangle_of};
ghost use Rattle.verdicts.specs.Verdicts.{verdict_of};
ghost use Rattle.triangle.specs.Reading.{ReadingOf};
ghost use Rattle.projection.specs.Year.{movement_of};
ghost use Rattle.run_off.specs.MethodRead.{method_read};
ghost use Rattle.single_cell.specs.Cells.{CellYear};
ghost use Rattle.single_cell.specs.Answers.{cell_of};

use lent::Triangle;
use prepared_years::triangle::PreparedTriangle;
use projection::{Movement, next_year};
use ratios::Development;
use row_states::RowState;
use run_off::rows::question_9;
use share::millionths::Millionths;
use triangle::reading::{NOTHING_READ, read_into};
use verdicts::limits::from_to;
use verdicts::verdict::{Place, Question, Refusal, asked};

// A cell of the future list, without the list: questions 1 to 9 are put to the whole triangle, and question 10 to the cell.
// What is lent may be anything: n, the cut, the years of the cell and every number any i64, and the lists of any length.
pub fn single_cell(triangle: Triangle<'_>, cell: Place) -> Result<Movement, Refusal>
    ensures whole { cell_of result ≡ single_cell (triangle_of triangle.entry) cell.accident_year cell.development_year }
    ensures demand_1 { Demand1OfCell (triangle_of triangle.entry) cell.accident_year cell.development_year (cell_of result) }
    ensures of_future { verdict_of result ≡ accepted → CellOfFuture (triangle_of triangle.entry) cell.accident_year cell.development_year (cell_of result) }
{
    let mut development = NOTHING_READ;
    read_into(triangle, None, &mut development)?;
    projected_cell(triangle, &development, cell)
}

// The cell of a triangle that questions 1 to 8 have accepted. It stays a call of its own, so that a prepared triangle takes no stack while one is read.
// Of the triangle it reads n alone; its contract speaks of the whole of it.
#[inline(never)]
fn projected_cell(
    triangle: Triangle<'_>,
    development: &Development,
    cell: Place,
) -> Result<Movement, Refusal>
    requires { ReadingOf (triangle_of triangle) None (Ok development.now) }
    ensures { cell_of result ≡ single_cell (triangle_of triangle.entry) cell.accident_year cell.development_year }
{
    let mut prepared = PreparedTriangle::EMPTY;
    prepared.prepare(triangle.years as usize, development);
    question_9(&prepared)?;
    asked(cell_unseen(triangle.years, cell), Question::YearsAsked)?;
    let i = cell.accident_year as usize;
    let k = cell.development_year as usize;
    Ok(movement(&prepared, i, k))
}

// Whether the cell is unseen. The sum of the two years is formed only where it is small.
fn cell_unseen(years: i64, cell: Place) -> bool
    requires { question_1 years ≡ accepted }
    ensures { result ≡ cell_unseen years cell.accident_year cell.development_year }
{
    from_to(2, years, cell.accident_year)
        && from_to(years + 2 - cell.accident_year, years, cell.development_year)
}

// The outstanding of a year is taken from that year's movement, and the movement from the outstanding before it.
#[cycle(movement_outstanding)]
fn outstanding(triangle: &PreparedTriangle, i: usize, k: usize) -> Millionths
    requires { CellYear triangle.now i k }
    ensures { result.0 ≡ O (method_read triangle.now) i k }
{
    if i + k == triangle.n + 1 {
        RowState::first(triangle.outstandings[i - 1]).outstanding
    } else {
        movement(triangle, i, k).outstanding
    }
}

// Question 9 has accepted every year, so that none is missing.
#[cycle(movement_outstanding)]
fn movement(triangle: &PreparedTriangle, i: usize, k: usize) -> Movement
    requires { CellYear triangle.now i k × (triangle.now.n + 1 < i + k) }
    ensures { result ≡ movement_of (movement (method_read triangle.now) i (k - 1)) }
{
    let before = outstanding(triangle, i, k - 1);
    next_year(before, triangle.years[k - 2]).unwrap()
}
