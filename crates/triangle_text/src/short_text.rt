// A text that is short enough for its places and its rows to be counted.
ghost use Rattle.std.specs.Prelude.{◌≤◌, length};
ghost use Rattle.text.specs.Bytes.{longest_text};

use line_parts::cells::Text;

// A text of no more bytes than a text of a program has.
#[derive(Clone, Copy)]
pub(crate) struct ShortText<'a> {
    pub(crate) text: Text<'a>,
    ghost short: { length text.bytes.now ≤ longest_text },
}
