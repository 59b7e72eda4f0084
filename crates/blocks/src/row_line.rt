// The line of a row.
ghost use Rattle.std.specs.Prelude.{◌≤◌, length};
ghost use Rattle.text.specs.Bytes.{longest_text};

use line_parts::cells::Text;

// A line, no longer than a text of a program is, and its number.
#[derive(Clone, Copy)]
pub(crate) struct RowLine<'a> {
    pub(crate) text: Text<'a>,
    pub(crate) number: usize,
    ghost short: { length text.bytes.now ≤ longest_text },
}
