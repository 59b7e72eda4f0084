// The first fault of the headings of a text, and of rows that stand under none.
#![tactic(auto)]

ghost use Rattle.std.specs.Prelude.{◌≡◌};
ghost use Rattle.text.specs.Lines.{lines};
ghost use Rattle.heading_faults.specs.Faults as meaning;

use figures::reading::figure_of;
use headings::places::{find_heading, says_cumulated};
use line_kinds::kinds::{LineKind, kind_of};
use line_parts::cells::Text;
use line_parts::words::is_word;
use text::lines::Lines;

// What was expected at a line.
#[derive(Clone, Copy, PartialEq, Eq)]
pub enum HeadingFault {
    HeadingBeforeRow,
    FiguresInRow,
    KnownHeading,
    HeadingOnce,
    CumulatedOrIncremental,
    NothingAfterHeading,
    NumberAfterCut,
    YearsAfterCell,
}

// A line, counted from 1, and what was expected there.
#[derive(Clone, Copy, PartialEq, Eq)]
pub struct WrongLine {
    pub line: usize,
    pub expected: HeadingFault,
}

// The first fault of all lines.
pub fn first_fault(text: Text<'_>) -> Result<(), WrongLine>
    ensures { result ≡ meaning.heading_fault text.entry.separator (lines text.entry.bytes.now) }
{
    // Blank where no heading came yet, as the definition begins: an Option would be no plainer, since all that is asked is whether rows may stand here.
    let mut under = LineKind::Blank;
    for (before, bytes) in (Lines { rest: text.bytes }).enumerate() {
        let line = Text { bytes, ..text };
        let kind = kind_of(line);
        let number = before + 1;
        check_line(text, line, number, kind, under).map_err(|expected| WrongLine {
            line: number,
            expected,
        })?;
        if kind.is_heading() {
            under = kind;
        }
    }
    Ok(())
}

// A line of this number and kind, under the last heading before it.
fn check_line(
    text: Text<'_>,
    line: Text<'_>,
    number: usize,
    kind: LineKind,
    under: LineKind,
) -> Result<(), HeadingFault>
    requires { line.separator ≡ text.separator }
    ensures { result ≡ meaning.line_check text.entry.separator (lines text.entry.bytes.now) number under line.entry.bytes.now kind }
{
    match kind {
        LineKind::Blank => Ok(()),
        LineKind::Separators => check(!under.has_rows(), HeadingFault::FiguresInRow),
        LineKind::Row => check(under.has_rows(), HeadingFault::HeadingBeforeRow),
        LineKind::Unknown => Err(HeadingFault::KnownHeading),
        _ => {
            // Not by is_some_and: the definition gives a heading that is not there the number 0, and nothing that is asked here rules out a line of number 0.
            let first = find_heading(text, kind).map_or(0, |found| found.line);
            if first == number {
                check_words(line, kind)
            } else {
                Err(HeadingFault::HeadingOnce)
            }
        }
    }
}

fn check(right: bool, fault: HeadingFault) -> Result<(), HeadingFault>
    ensures { result ≡ meaning.check right fault }
{
    if right { Ok(()) } else { Err(fault) }
}

// The words after a heading of this kind.
fn check_words(line: Text<'_>, kind: LineKind) -> Result<(), HeadingFault>
    ensures { result ≡ meaning.words_check line.entry.separator line.entry.bytes.now kind }
{
    match kind {
        LineKind::Payments | LineKind::Adjustments => amount_words(line),
        LineKind::Cut => cut_words(line),
        LineKind::Cell => cell_words(line),
        _ => no_words(line),
    }
}

#[tactic(auto, unfolding(crate::specs::Faults::amount_words))]
fn amount_words(line: Text<'_>) -> Result<(), HeadingFault>
    ensures { result ≡ meaning.amount_words line.entry.separator line.entry.bytes.now }
{
    check(says_how(line), HeadingFault::CumulatedOrIncremental)
}

#[tactic(auto, unfolding(crate::specs::Faults::cut_words))]
fn cut_words(line: Text<'_>) -> Result<(), HeadingFault>
    ensures { result ≡ meaning.cut_words line.entry.separator line.entry.bytes.now }
{
    check(
        is_number(line, 1) & is_no_word(line, 2),
        HeadingFault::NumberAfterCut,
    )
}

#[tactic(auto, unfolding(crate::specs::Faults::cell_words))]
fn cell_words(line: Text<'_>) -> Result<(), HeadingFault>
    ensures { result ≡ meaning.cell_words line.entry.separator line.entry.bytes.now }
{
    check(
        is_number(line, 1) & is_number(line, 2) & is_no_word(line, 3),
        HeadingFault::YearsAfterCell,
    )
}

#[tactic(auto, unfolding(crate::specs::Faults::no_words))]
fn no_words(line: Text<'_>) -> Result<(), HeadingFault>
    ensures { result ≡ meaning.no_words line.entry.separator line.entry.bytes.now }
{
    check(is_no_word(line, 1), HeadingFault::NothingAfterHeading)
}

#[tactic(auto, unfolding(crate::specs::Faults::says_how))]
fn says_how(line: Text<'_>) -> bool
    ensures { result ≡ meaning.says_how line.entry.separator line.entry.bytes.now }
{
    let how = line.word(1);
    (says_cumulated(how) | is_word(how, b"incremental")) & is_no_word(line, 2)
}

#[tactic(auto, unfolding(crate::specs::Faults::is_no_word))]
fn is_no_word(line: Text<'_>, number: usize) -> bool
    ensures { result ≡ meaning.is_no_word line.entry.separator line.entry.bytes.now number }
{
    line.word(number).is_empty()
}

#[tactic(auto, unfolding(crate::specs::Faults::is_number))]
fn is_number(line: Text<'_>, number: usize) -> bool
    ensures { result ≡ meaning.is_number line.entry.separator line.entry.bytes.now number }
{
    figure_of(line.word(number)).is_ok()
}
