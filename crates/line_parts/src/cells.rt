// The separator of a text, and the cells of a line.
ghost use Rattle.std.specs.Prelude.{◌≡◌};
ghost use Rattle.line_parts.specs.Cells as meaning;

use text::lines::Lines;
use text::search::{after, before, from, is_separator};

// A text or a part of it, such as a line, and the byte that separates its cells.
#[derive(Clone, Copy)]
pub struct Text<'a> {
    pub bytes: &'a [u8],
    pub separator: u8,
}

impl<'a> Text<'a> {
    // A text with its own separator.
    pub fn new(bytes: &'a [u8]) -> Text<'a>
        ensures bytes { result.bytes.now ≡ bytes.now }
        ensures separator { result.separator ≡ meaning.separator_of bytes.now }
    {
        Text {
            bytes,
            separator: separator_of(bytes),
        }
    }

    // The first cell, without the spaces around it.
    pub fn first_cell(self) -> &'a [u8]
        ensures { result.now ≡ meaning.first_cell self.entry.separator self.entry.bytes.now }
    {
        trimmed(before(self.bytes, |byte| byte == self.separator))
    }

    // What is left after the first cell and its separator.
    pub fn after_cell(self) -> Text<'a>
        ensures bytes { result.bytes.now ≡ meaning.after_cell self.entry.separator self.entry.bytes.now }
        ensures separator { result.separator ≡ self.entry.separator }
    {
        Text {
            bytes: after(self.bytes, |byte| byte == self.separator),
            ..self
        }
    }

    // From one of the fields on, which separators part and which count from 0; empty where there are fewer.
    pub fn from_field(self, number: usize) -> Text<'a>
        ensures bytes { result.bytes.now ≡ meaning.from_field self.entry.separator number self.entry.bytes.now }
        ensures separator { result.separator ≡ self.entry.separator }
    {
        let mut rest = self;
        for _ in 0..number {
            rest = rest.after_cell();
        }
        rest
    }

    // A field as it stands between separators.
    pub fn field(self, number: usize) -> &'a [u8]
        ensures { result.now ≡ meaning.field self.entry.separator number self.entry.bytes.now }
    {
        before(self.from_field(number).bytes, |byte| {
            byte == self.separator
        })
    }
}

// The first comma, semicolon or tab that is in no comment; a comma where there is none.
pub fn separator_of(text: &[u8]) -> u8
    ensures { result ≡ meaning.separator_of text.now }
{
    for line in (Lines { rest: text }) {
        if let Some(separator) = from(line, is_separator).first() {
            return *separator;
        }
    }
    b','
}

// A text without the spaces around it.
pub fn trimmed(text: &[u8]) -> &[u8]
    ensures { result.now ≡ meaning.trimmed text.now }
{
    without_last_spaces(from(text, |byte| byte != b' '))
}

// A text without the spaces that end it.
fn without_last_spaces(text: &[u8]) -> &[u8]
    ensures { result.now ≡ meaning.without_last_spaces text.now }
{
    match text.iter().rposition(|byte| *byte != b' ') {
        Some(last) => &text[..=last],
        None => &[],
    }
}
