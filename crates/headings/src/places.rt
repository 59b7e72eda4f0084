// Where a heading stands in a text, and what it says.
ghost use Rattle.std.specs.Prelude.{◌≡◌, ◌+◌, ◌≤◌, ◌<◌, ◌^◌, ℤ, length, unwrap_or};
ghost use Rattle.text.specs.Lines.{lines};
ghost use Rattle.headings.specs.Places.{HeadingFound, rows_in, line_there, row_line_after};
ghost use Rattle.headings.specs.Places as meaning;

use figures::reading::figure_of;
use line_kinds::kinds::{LineKind, is_either, kind_of};
use line_parts::cells::Text;
use text::lines::{Lines, after_line, first_line};

// The number of a heading's line, counted from 1, what stands in it, and the lines after it.
#[derive(Clone, Copy)]
pub struct Heading<'a> {
    pub line: usize,
    pub content: Text<'a>,
    pub rows: Lines<'a>,
}

// The first line that is this heading.
pub fn find_heading<'a>(text: Text<'a>, heading: LineKind) -> Option<Heading<'a>>
    ensures { HeadingFound text.entry.bytes.now text.entry.separator heading result }
{
    // No plainer by the iterator of lines: it would have to promise of all who use it that what is left is a part of the text.
    let mut line = 0;
    let mut rest = text.bytes;
    while !rest.is_empty() {
        let content = Text {
            bytes: first_line(rest),
            ..text
        };
        rest = after_line(rest);
        line += 1;
        if kind_of(content) == heading {
            return Some(Heading {
                line,
                content,
                rows: Lines { rest },
            });
        }
    }
    None
}

impl<'a> Heading<'a> {
    // The number of rows under it, up to the next heading.
    pub fn count_rows(self) -> usize
        ensures { (result ≡ rows_in self.entry.content.separator (lines self.entry.rows.rest.now)) × (result ≤ length (lines self.entry.rows.rest.now)) }
    {
        // Tried as map, take_while, filter and count: the proof did not close, since it does not see which kind the closure gives.
        let mut count = 0;
        for bytes in self.rows {
            let kind = kind_of(Text {
                bytes,
                ..self.content
            });
            if kind.is_heading() {
                return count;
            }
            if kind == LineKind::Row {
                count += 1;
            }
        }
        count
    }

    // The number of the line of a row under it, both counted from 1.
    fn row_line(self, row: usize) -> Option<usize>
        requires { self.line + length (lines self.rows.rest.now) < 2 ^ 64 }
        ensures { result ≡ line_there (row_line_after self.entry.content.separator self.entry.line row (lines self.entry.rows.rest.now)) }
    {
        // Tried as enumerate, map, take_while, filter and nth: the proofs of what nth asks of the closures, and of what it gives, did not close.
        let mut left = row;
        for (before, bytes) in self.rows.enumerate() {
            let kind = kind_of(Text {
                bytes,
                ..self.content
            });
            let line = self.line + before + 1;
            if kind.is_heading() {
                return None;
            }
            let row_here = kind == LineKind::Row;
            if row_here & (left <= 1) {
                return Some(line);
            }
            left = left_after(row_here, left);
        }
        None
    }
}

// The number of the row sought, after a line that is a row or not.
fn left_after(row: bool, left: usize) -> usize
    ensures { result ≡ meaning.left_after row left }
{
    if row { left.saturating_sub(1) } else { left }
}

// The number that a word after a heading is, where the text has such a heading and the word is a number.
pub fn number_after(text: Text<'_>, heading: LineKind, number: usize) -> Option<i64>
    ensures { (other : ℤ) → unwrap_or result other ≡ meaning.number_after text.entry.separator heading number other (lines text.entry.bytes.now) }
{
    let found = find_heading(text, heading)?;
    figure_of(found.content.word(number)).ok()
}

// Whether the rows under a heading are cumulated.
#[tactic(auto, using(crate::proofs::HeadingSearch::heading_word, crate::proofs::HeadingSearch::no_heading_word), unfolding(crate::specs::Places::is_cumulated, line_kinds::specs::Kinds::is_either, line_parts::specs::Words::is_word))]
pub fn is_cumulated(text: Text<'_>, heading: LineKind) -> bool
    ensures { result ≡ meaning.is_cumulated text.entry.separator heading (lines text.entry.bytes.now) }
{
    find_heading(text, heading).is_some_and(|found| says_cumulated(found.content.word(1)))
}

pub fn says_cumulated(word: &[u8]) -> bool
    ensures { result ≡ meaning.says_cumulated word.now }
{
    is_either(word, b"cumulated", b"cumulative")
}

// The number of the line of a row under a heading, both counted from 1.
#[tactic(auto, using(crate::proofs::HeadingSearch::rows_counted, crate::proofs::RowLines::no_row, crate::proofs::RowLines::row_of_heading))]
pub fn row_line(text: Text<'_>, heading: LineKind, row: usize) -> Option<usize>
    ensures { result ≡ line_there (meaning.row_line text.entry.separator heading row (lines text.entry.bytes.now)) }
{
    find_heading(text, heading)?.row_line(row)
}
