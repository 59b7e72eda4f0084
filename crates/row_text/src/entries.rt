// What a cell of a row holds.
ghost use Rattle.std.specs.Prelude.{◌≡◌};
ghost use Rattle.figures.specs.Reading.{figure_of};
ghost use Rattle.row_text.specs.Entries as meaning;

use exact_sums::exact::difference;
use figures::reading::{NoFigure, figure_of};

// What was expected in a cell.
#[derive(Clone, Copy, PartialEq, Eq)]
pub enum CellFault {
    NumberForBlank,
    WholeNumber,
    SixtyFourBits,
    DifferenceOfSixtyFourBits,
    RowEnd,
    NoFurtherOpening,
}

// The amount that a cell holds, and the figure that was written there.
#[derive(Clone, Copy)]
pub struct Entry {
    pub amount: i64,
    pub figure: i64,
}

// A blank cell is 0 where it is missing. A cumulated figure, which has one before it, adds its difference from that.
pub(crate) fn entry_in(cell: &[u8], missing: bool, before: Option<i64>) -> Result<Entry, CellFault>
    ensures { result ≡ meaning.entry_of (figure_of cell.now) missing before }
{
    match figure_of(cell) {
        Ok(figure) => of_figure(figure, before),
        Err(NoFigure::Blank) if missing => Ok(Entry {
            amount: 0,
            figure: 0,
        }),
        Err(NoFigure::Blank) => Err(CellFault::NumberForBlank),
        Err(NoFigure::TooLarge) => Err(CellFault::SixtyFourBits),
        Err(NoFigure::NotWhole) => Err(CellFault::WholeNumber),
    }
}

fn of_figure(figure: i64, before: Option<i64>) -> Result<Entry, CellFault>
    ensures { result ≡ meaning.of_figure figure before }
{
    let amount = match before {
        Some(before) => { difference(figure, before).ok_or(CellFault::DifferenceOfSixtyFourBits)? }
        None => figure,
    };
    Ok(Entry { amount, figure })
}
