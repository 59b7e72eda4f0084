// What is printed of a malformed text: where the fault is, what was expected there and what was met, and what to do about it.
ghost use Rattle.std.specs.Prelude.{◌≡◌};
ghost use Rattle.std.specs.Option.{option_copied};
ghost use Rattle.printed.specs.Line.{LineIs};
ghost use Rattle.malformed.specs.Messages as meaning;
ghost use Rattle.malformed.specs.Messages.{AdviceIs};

use crate::advice::{advice_of_cell, advice_of_heading};
use blocks::faults::{Expected, Fault};
use heading_faults::HeadingFault;
use met_text::shown_text::with_shown;
use printed::counts::signed;
use printed::filling::filled;
use printed::line::Line;
use row_text::entries::CellFault;

// The first line.
pub fn fault_line(fault: Fault, met: &[u8]) -> Line
    ensures { LineIs (meaning.fault_line fault.line fault.cell fault.expected met.now) result }
{
    let expected = fault_place(fault.line, fault.cell).with_text(expected_text(fault.expected));
    with_shown(expected.with_text(b", and met "), met)
}

// The cell is 0 where the whole line is meant, and no Option: a fault has that number.
#[tactic(auto, unfolding(crate::specs::Messages::fault_place))]
fn fault_place(line: usize, cell: usize) -> Line
    ensures { LineIs (meaning.fault_place line cell) result }
{
    if cell == 0 {
        return filled(b"refused: line @: ", &[signed(line)]);
    }
    filled(b"refused: line @, cell @: ", &[signed(line), signed(cell)])
}

// A sentence by its fault, and no Display: that writes with a Result, and a line that is made cannot fail.
fn expected_text(expected: Expected) -> &'static [u8]
    ensures { result.now ≡ meaning.expected_text expected }
{
    match expected {
        Expected::InHeading(fault) => expected_heading(fault),
        Expected::InCell(fault) => expected_cell(fault),
        Expected::Incremental => b"expected incremental figures, for the cut is above 1",
        Expected::NoFurtherRow => b"expected no further row",
    }
}

fn expected_heading(fault: HeadingFault) -> &'static [u8]
    ensures { result.now ≡ meaning.expected_heading fault }
{
    match fault {
        HeadingFault::HeadingBeforeRow => {
            b"expected payments, adjustments, weights or openings before a row"
        }
        HeadingFault::FiguresInRow => b"expected figures in this row",
        HeadingFault::KnownHeading => {
            b"expected payments, adjustments, weights, openings, cut, cell or a row of whole numbers"
        }
        HeadingFault::HeadingOnce => b"expected this heading only once",
        HeadingFault::CumulatedOrIncremental => {
            b"expected cumulated or incremental, and nothing else, after this heading"
        }
        HeadingFault::NothingAfterHeading => b"expected nothing after this heading",
        HeadingFault::NumberAfterCut => b"expected one whole number after cut",
        HeadingFault::YearsAfterCell => {
            b"expected an accident year and a development year after cell"
        }
    }
}

fn expected_cell(fault: CellFault) -> &'static [u8]
    ensures { result.now ≡ meaning.expected_cell fault }
{
    match fault {
        CellFault::NoFurtherOpening => b"expected no further opening",
        CellFault::NumberForBlank => {
            b"expected a whole number, for only a missing cell is blank"
        }
        CellFault::WholeNumber => b"expected a whole number, such as 1234 or -1234",
        CellFault::SixtyFourBits => b"expected a number of at most 64 bits",
        CellFault::DifferenceOfSixtyFourBits => {
            b"expected a figure whose difference from the one before has at most 64 bits"
        }
        CellFault::RowEnd => b"expected nothing, for the row ends before this cell",
    }
}

// The second line: what to do, where there is something to say.
pub fn advice(expected: Expected, met: &[u8]) -> Option<Line>
    ensures { AdviceIs (meaning.advice expected met.now) result }
{
    Some(Line::of(advice_text(expected, met)?))
}

fn advice_text(expected: Expected, met: &[u8]) -> Option<&'static [u8]>
    ensures { option_copied result ≡ meaning.advice expected met.now }
{
    match expected {
        Expected::InHeading(fault) => advice_of_heading(fault),
        Expected::InCell(fault) => advice_of_cell(fault, met),
        Expected::Incremental => None,
        Expected::NoFurtherRow => Some(
            b"There are as many rows as rows of payments, and of weights one less. A row of totals is left out.",
        ),
    }
}
