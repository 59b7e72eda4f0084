// The entries of a table's line.
ghost use Rattle.std.specs.Prelude.{◌++◌};
ghost use Rattle.printed.specs.Line.{LineIs, After};
ghost use Rattle.printed.specs.Entries.{entry, set_right, count_text};

use crate::counts::signed;
use crate::line::Line;
use written_figures::writing::whole;

impl Line {
    // The line with an entry after it: two spaces, and a text set to the right in its column.
    pub fn with_entry(self, text: &[u8], column: usize) -> Line
        ensures { After self (entry column text.now) result }
    {
        self.with_marked_entry(b"", text, column)
    }

    // An entry of a mark and a text.
    pub fn with_marked_entry(self, mark: &[u8], text: &[u8], column: usize) -> Line
        ensures { After self (entry column (mark.now ++ text.now)) result }
    {
        let spaces = column.saturating_sub(mark.len()).saturating_sub(text.len());
        self.with_spaces(2)
            .with_spaces(spaces)
            .with_text(mark)
            .with_text(text)
    }
}

// The label of a row, as wide as the heading of its column.
pub fn label(number: usize, column: usize) -> Line
    ensures { LineIs (set_right column (count_text number)) result }
{
    let written = whole(signed(number));
    let spaces = column.saturating_sub(written.text().len());
    Line::empty().with_spaces(spaces).with_text(written.text())
}
