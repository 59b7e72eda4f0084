// The call that fills both answer lists.
ghost use Rattle.std.specs.Prelude.{◌≡◌, length};
ghost use Rattle.method.specs.RunOff.{method};
ghost use Rattle.method.specs.Verdicts.{accepted};
ghost use Rattle.method.specs.Answers.{answer};
ghost use Rattle.method.specs.Demand1.{Demand1};
ghost use Rattle.method.specs.Demand2.{Demand2};
ghost use Rattle.method.specs.Demand3.{Demand3};
ghost use Rattle.lent.specs.Triangles.{triangle_of};
ghost use Rattle.verdicts.specs.Verdicts.{verdict_of};
ghost use Rattle.triangle.specs.Reading.{ReadingOf};
ghost use Rattle.calls.specs.Answers.{answer_of, Filled};

use crate::all_rows::project;
use lent::{AnswerLengths, Triangle};
use prepared_years::triangle::PreparedTriangle;
use ratios::Development;
use triangle::reading::{NOTHING_READ, read_into};
use verdicts::verdict::Verdict;

// The verdict of questions 1 to 9. Where they accept, the future list and the reserve list are document 01's; else both hold zeros throughout.
// What is lent may be anything: n, the cut and every number any i64, and the lists of any length.
pub fn reserve(triangle: Triangle<'_>, future: &mut [i64], reserves: &mut [i64]) -> Verdict
    ensures whole { answer_of (verdict_of result) future.new reserves.new
        ≡ answer (triangle_of triangle.entry) (length future.old) (length reserves.old) }
    ensures demand_1 { Demand1 (triangle_of triangle.entry) (length future.old) (length reserves.old)
        (verdict_of result) future.new reserves.new }
    ensures demand_2 { verdict_of result ≡ accepted → Demand2 (triangle_of triangle.entry) future.new reserves.new }
    ensures demand_3 { verdict_of result ≡ accepted → Demand3 (method (triangle_of triangle.entry)) future.new reserves.new }
{
    let verdict = fill(triangle, future, reserves);
    if verdict.is_err() {
        future.fill(0);
        reserves.fill(0);
    }
    verdict
}

// The same, but a refused call leaves in the lists what it had written before the refusal.
fn fill(triangle: Triangle<'_>, future: &mut [i64], reserves: &mut [i64]) -> Verdict
    ensures { Filled (triangle_of triangle.entry) (length future.old) (length reserves.old) (verdict_of result) future.new reserves.new }
{
    let answers = AnswerLengths {
        future: future.len(),
        reserves: reserves.len(),
    };
    let mut development = NOTHING_READ;
    read_into(triangle, Some(answers), &mut development)?;
    fill_accepted(triangle, &development, future, reserves)
}

// The same for a triangle that questions 1 to 8 have accepted. It stays a call of its own, so that its stack is not taken while a triangle is read.
// Of the triangle it reads n alone; its contract speaks of the whole of it.
#[inline(never)]
fn fill_accepted(
    triangle: Triangle<'_>,
    development: &Development,
    future: &mut [i64],
    reserves: &mut [i64],
) -> Verdict
    requires { ReadingOf (triangle_of triangle) (Some (record { future = length future.old; reserves = length reserves.old })) (Ok development.now) }
    ensures { Filled (triangle_of triangle.entry) (length future.old) (length reserves.old) (verdict_of result) future.new reserves.new }
{
    let mut prepared = PreparedTriangle::EMPTY;
    prepared.prepare(triangle.years as usize, development);
    project(&prepared, future, reserves)
}
