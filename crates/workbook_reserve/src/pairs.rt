// The reserves of a triangle as pairs of floats.
ghost use Rattle.std.specs.Prelude.{◌≡◌, ◌≤◌, nat_abs, length};
ghost use Rattle.method.specs.Limits.{most_accident_years};
ghost use Rattle.lent.specs.Triangles.{triangle_of};
ghost use Rattle.verdicts.specs.Verdicts.{verdict_of};
ghost use Rattle.workbook.specs.Workbook.{pairs_length};
ghost use Rattle.workbook_reserve.specs.Workbooks.{FilledInPairs};

use calls::reserve::reserve;
use lent::Triangle;
use reserve_pairs::write_pairs;
use verdicts::lengths::RESERVE_FIGURES;
use verdicts::verdict::Verdict;

// As `reserve`, but that the reserves are written as pairs, and nothing is said of what a refused call leaves in the lists.
pub(crate) fn reserve_in_pairs(
    triangle: Triangle<'_>,
    future: &mut [i64],
    pairs: &mut [f64],
) -> Verdict
    requires { (nat_abs triangle.years ≤ most_accident_years) × (length pairs.old ≡ pairs_length (nat_abs triangle.years)) }
    ensures { FilledInPairs (triangle_of triangle.entry) (length future.old) (verdict_of result) future.new pairs.new }
{
    let mut room = [0i64; RESERVE_FIGURES];
    let reserves = &mut room[..pairs.len() / 2];
    reserve(triangle, future, reserves)?;
    write_pairs(reserves, pairs);
    Ok(())
}
