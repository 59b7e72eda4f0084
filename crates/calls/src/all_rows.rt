// The accident years of a triangle, projected one after another. What the loop keeps is `RowsSoFar` in proofs/RowsLoop.antt.
ghost use Rattle.std.specs.Prelude.{◌≡◌, length};
ghost use Rattle.method.specs.Triangle.{future_length, reserves_length};
ghost use Rattle.verdicts.specs.Verdicts.{verdict_of};
ghost use Rattle.run_off.specs.MethodRead.{method_read};
ghost use Rattle.calls.specs.Answers.{RowsProjected};

use lists::write_three;
use prepared_years::triangle::PreparedTriangle;
use run_off::rows::{IntoList, project_row};
use verdicts::lengths::future_length;
use verdicts::verdict::Verdict;

// Projects every accident year: its figures into the future list, its reserves into the reserve list.
// Stops at the first refusal of question 9, and leaves what it has written.
pub(crate) fn project(
    triangle: &PreparedTriangle,
    future: &mut [i64],
    reserves: &mut [i64],
) -> Verdict
    requires { (length future.old ≡ future_length triangle.now.n) × (length reserves.old ≡ reserves_length triangle.now.n) }
    ensures { RowsProjected (method_read triangle.now) (verdict_of result) future.new reserves.new }
{
    for r in 0..triangle.n {
        let row = project_row(triangle, r + 1, future, IntoList(future_length(r)))?;
        write_three(reserves, 3 * r, row.paid.0, row.incurred.0, row.closing.0);
    }
    Ok(())
}
