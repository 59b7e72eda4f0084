// What to do about a fault of a text, where there is something to say.
ghost use Rattle.std.specs.Prelude.{◌≡◌};
ghost use Rattle.std.specs.Option.{option_copied};
ghost use Rattle.malformed.specs.Messages as meaning;

use heading_faults::HeadingFault;
use row_text::entries::CellFault;

pub(crate) fn advice_of_heading(fault: HeadingFault) -> Option<&'static [u8]>
    ensures { option_copied result ≡ meaning.advice_of_heading fault }
{
    match fault {
        HeadingFault::HeadingBeforeRow => Some(
            b"Headings of columns, and whatever else stands above the figures, begin with # and a space, without quotes.",
        ),
        HeadingFault::FiguresInRow => Some(
            b"An empty row of a spreadsheet is written like this: fill in its figures or take it out.",
        ),
        HeadingFault::KnownHeading => Some(
            b"A heading is such as paid cumulated. A row has figures only: no accident year, no word, no totals. Anything else begins with # and a space.",
        ),
        HeadingFault::CumulatedOrIncremental => Some(
            b"Cumulated figures are sums along their row so far, incremental ones those of one development year each.",
        ),
        HeadingFault::HeadingOnce
        | HeadingFault::NothingAfterHeading
        | HeadingFault::NumberAfterCut
        | HeadingFault::YearsAfterCell => None,
    }
}

pub(crate) fn advice_of_cell(fault: CellFault, met: &[u8]) -> Option<&'static [u8]>
    ensures { option_copied result ≡ meaning.advice_of_cell fault met.now }
{
    match fault {
        CellFault::NumberForBlank => Some(
            b"Is there a row of totals or of development years? It counts as an accident year, and every row then wants one figure more.",
        ),
        CellFault::WholeNumber => Some(number_advice(mistake_of(met))),
        CellFault::RowEnd => Some(
            b"A row has no accident year before its figures, no total behind them, and nothing below the diagonal, also no 0.",
        ),
        CellFault::NoFurtherOpening
        | CellFault::SixtyFourBits
        | CellFault::DifferenceOfSixtyFourBits => None,
    }
}

// The mistakes that are made most often with a cell that is no number.
#[derive(Clone, Copy)]
pub enum Mistake {
    Comment,
    SpreadsheetError,
    Quotes,
    Brackets,
    TypographicMinus,
    Word,
    PowerOfTen,
    Other,
}

fn number_advice(mistake: Mistake) -> &'static [u8]
    ensures { result.now ≡ meaning.number_advice mistake }
{
    match mistake {
        Mistake::Comment => b"A comment has a space before its # and one after it.",
        Mistake::SpreadsheetError => {
            b"This is a spreadsheet's error: mend it in the spreadsheet and export again. A comment would have a space after its #."
        }
        Mistake::Quotes => {
            b"Figures stand without quotes, which thousands marks bring: set the cells' format to plain numbers and export again."
        }
        Mistake::Brackets => b"A negative figure has a - before it and no brackets.",
        Mistake::TypographicMinus => b"A figure has no sign before it but the - of the keyboard.",
        Mistake::Word => {
            b"A word is no figure. A cell is blank only where the cut says that it is missing."
        }
        Mistake::PowerOfTen => {
            b"Show the figure in full: no power of ten, no currency and no other letters."
        }
        Mistake::Other => {
            b"Figures are whole units: digits, a - before them where they are negative, no decimals and no thousands marks."
        }
    }
}

// By the first byte, and then by a letter of a power of ten.
#[tactic(auto, using(crate::proofs::HasByte::has_byte_is_any), unfolding(crate::specs::Messages::mistake_of))]
fn mistake_of(cell: &[u8]) -> Mistake
    ensures { result ≡ meaning.mistake_of cell.now }
{
    match cell {
        [] => Mistake::Other,
        [b'#', ..] => after_number_sign(cell),
        [b'"', ..] => Mistake::Quotes,
        [b'(', ..] => Mistake::Brackets,
        [226, ..] => Mistake::TypographicMinus,
        [first, ..] if first.is_ascii_alphabetic() => Mistake::Word,
        _ if cell.contains(&b'E') | cell.contains(&b'e') => Mistake::PowerOfTen,
        _ => Mistake::Other,
    }
}

// Of a cell that begins with a number sign.
#[tactic(auto, unfolding(crate::specs::Messages::after_number_sign))]
fn after_number_sign(cell: &[u8]) -> Mistake
    ensures { result ≡ meaning.after_number_sign cell.now }
{
    match cell {
        [_] | [_, b' ', ..] => Mistake::Comment,
        _ => Mistake::SpreadsheetError,
    }
}
