// The width of a table's column.
ghost use Rattle.std.specs.Prelude.{ℕ, ◌≤◌, ◌<◌};
ghost use Rattle.printed.specs.Columns.{WidestOf};

use std::ops::Range;

// The largest of a first width and of those at some places.
pub fn widest<F: Fn(usize) -> usize>(first: usize, places: Range<usize>, width: F) -> usize
    requires { (place : ℕ) → places.start ≤ place → place < places.end → F.pre width place }
    ensures { WidestOf (F.post width) first places.start places.end result }
{
    // tried as a fold: that the width may be asked at each of its turns did not close, since that is known of these places only
    // tried over `places` itself: the loop then needs one answer more, on its iterator
    let mut column = first;
    for place in places.start..places.end {
        column = column.max(width(place));
    }
    column
}
