// The total of a column.
ghost use Rattle.std.specs.Prelude.{ℕ, ◌≤◌, ◌<◌};
ghost use Rattle.reserve_table.specs.Totals.{TotalOf, WithTotal, TotalWidth};

use exact_sums::exact::sum;
use printed::line::Line;
use std::ops::Range;
use written_figures::writing::Written;

// The total of the numbers at some places; nothing where 64 bits do not hold a sum on the way.
pub(crate) fn total_of<F: Fn(usize) -> i64>(places: Range<usize>, number: F) -> Option<i64>
    requires { (place : ℕ) → places.start ≤ place → place < places.end → F.pre number place }
    ensures { TotalOf (F.post number) places.start places.end result }
{
    // tried as a try_fold: that the number may be asked at each of its turns did not close, since that is known of these places only
    // The bounds are named, as in `widest` of printed.
    let mut total = 0;
    for place in places.start..places.end {
        total = sum(total, number(place))?;
    }
    Some(total)
}

// A line with a total as an entry, written in whole units or in millionths, or with the words that it is too large.
pub(crate) fn with_total<F: Fn(i64) -> Written>(
    line: Line,
    total: Option<i64>,
    written: F,
    column: usize,
) -> Line
    requires { F.IsAlwaysCallable written }
    ensures { WithTotal (F.post written) line total column result }
{
    match total {
        Some(number) => line.with_entry(written(number).text(), column),
        None => line.with_entry(b"above 64 bits", column),
    }
}

// The width of that entry: 13 is that of the words.
pub(crate) fn total_width<F: Fn(i64) -> Written>(total: Option<i64>, written: F) -> usize
    requires { F.IsAlwaysCallable written }
    ensures { TotalWidth (F.post written) total result }
{
    total.map_or(13, |number| written(number).width)
}
