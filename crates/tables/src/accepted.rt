// How an accepted triangle was read.
ghost use Rattle.printed.specs.Line.{LineIs};
ghost use Rattle.tables.specs.Accepted as meaning;

use printed::filling::filled;
use printed::line::Line;

pub fn accepted_line(years: i64, cut: i64) -> Line
    ensures { LineIs (meaning.accepted_line years cut) result }
{
    filled(b"accepted: @ accident years, cut @", &[years, cut])
}

// This and the next two are each a condition with its two texts: a function of both texts would say no more than the `if`.
pub fn payments_line(cumulated: bool) -> Line
    ensures { LineIs (meaning.payments_line cumulated) result }
{
    if cumulated {
        Line::of(b"Payments are read as cumulated figures.")
    } else {
        Line::of(b"Payments are read as incremental figures.")
    }
}

pub fn adjustments_line(cumulated: bool) -> Line
    ensures { LineIs (meaning.adjustments_line cumulated) result }
{
    if cumulated {
        Line::of(b"Adjustments are read as cumulated figures, which are reported amounts.")
    } else {
        Line::of(b"Adjustments are read as incremental figures.")
    }
}

pub fn weights_line(given: bool) -> Line
    ensures { LineIs (meaning.weights_line given) result }
{
    if given {
        Line::of(b"Weights are read as given.")
    } else {
        Line::of(b"Weights are not given: each is 1, or 0 where its cell is missing.")
    }
}

// Where the cut is above 1.
pub fn openings_line() -> Line
    ensures { LineIs meaning.openings_line result }
{
    Line::of(b"Openings are read as given.")
}
