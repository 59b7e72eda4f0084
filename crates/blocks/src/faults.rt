// What is wrong with a text, and where.
ghost use Rattle.std.specs.Prelude.{◌≡◌};
ghost use Rattle.blocks.specs.Blocks.{of_heading};

use heading_faults::{HeadingFault, WrongLine};
use row_text::entries::CellFault;

// What was expected.
#[derive(Clone, Copy, PartialEq, Eq)]
pub enum Expected {
    InHeading(HeadingFault),
    InCell(CellFault),
    Incremental,
    NoFurtherRow,
}

// The first fault of a text: its line and its cell, counted from 1, the cell 0 where the whole line is meant.
// The cell is no Option: the definition of a text that is malformed has a number there, 0 for the whole line, and its worked texts write it.
#[derive(Clone, Copy, PartialEq, Eq)]
pub struct Fault {
    pub line: usize,
    pub cell: usize,
    pub expected: Expected,
}

// A wrong line is meant as a whole.
impl From<WrongLine> for Fault {
    ghost from_gives = { λ wrong fault. fault ≡ of_heading wrong };

    fn from(wrong: WrongLine) -> Fault {
        Fault {
            line: wrong.line,
            cell: 0,
            expected: Expected::InHeading(wrong.expected),
        }
    }
}
