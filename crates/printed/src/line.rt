// A line as its bytes, made from the left.
ghost use Rattle.std.specs.Prelude.{[], ◌∷◌, replicate};
ghost use Rattle.written_figures.specs.Writing.{space, whole_text};
ghost use Rattle.printed.specs.Line.{LineIs, After};

use written_figures::writing::whole;

// Room for every line that is printed.
pub const ROOM: usize = 512;

const SPACES: [u8; ROOM] = [b' '; ROOM];

// A text of `length` bytes, at the start of its room.
// A line is copied freely, and nothing that makes one can fail: a vector of the library in fixed room is no Copy, and its clone is a Result,
// as is what a Display writes.
// Its room is no ghost field: a type that knows it would ask it of whoever makes a line.
#[derive(Clone, Copy)]
pub struct Line {
    pub bytes: [u8; ROOM],
    pub length: usize,
}

impl Line {
    #[tactic(auto, unfolding(crate::specs::Line::fitted))]
    pub fn empty() -> Line
        ensures { LineIs [] result }
    {
        Line {
            bytes: [0; ROOM],
            length: 0,
        }
    }

    // A text as a line.
    pub fn of(text: &[u8]) -> Line
        ensures { LineIs text.now result }
    {
        Line::empty().with_text(text)
    }

    // The line with a text after it. What has no room is cut off.
    pub fn with_text(mut self, text: &[u8]) -> Line
        ensures { After self text.now result }
    {
        let start = self.length.min(ROOM);
        let count = (ROOM - start).min(text.len());
        self.bytes[start..start + count].copy_from_slice(&text[..count]);
        self.length = start + count;
        self
    }

    pub fn with_byte(self, byte: u8) -> Line
        ensures { After self (byte ∷ []) result }
    {
        self.with_text(&[byte])
    }

    pub fn with_spaces(self, count: usize) -> Line
        ensures { After self (replicate count space) result }
    {
        self.with_text(&SPACES[..count.min(ROOM)])
    }

    // A whole number, as -1,216,632.
    pub fn with_number(self, number: i64) -> Line
        ensures { After self (whole_text number) result }
    {
        self.with_text(whole(number).text())
    }
}
