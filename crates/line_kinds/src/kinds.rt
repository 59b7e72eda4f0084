// What a line of a triangle's text is.
ghost use Rattle.std.specs.Prelude.{◌≡◌};
ghost use Rattle.text.specs.Search.{is_no_space, from};
ghost use Rattle.line_kinds.specs.Kinds as meaning;

use line_parts::cells::Text;
use line_parts::words::is_word;
use text::search::{from, is_content};

#[derive(Clone, Copy, PartialEq, Eq)]
pub enum LineKind {
    Blank,
    // separators and spaces only
    Separators,
    Payments,
    Adjustments,
    Weights,
    Openings,
    Cut,
    Cell,
    Row,
    // a heading with another first word
    Unknown,
}

impl LineKind {
    pub fn is_heading(self) -> bool
        ensures { result ≡ meaning.is_heading self }
    {
        !matches!(self, LineKind::Blank | LineKind::Separators | LineKind::Row)
    }

    // Whether rows may follow.
    pub fn has_rows(self) -> bool
        ensures { result ≡ meaning.has_rows self }
    {
        matches!(
            self,
            LineKind::Payments | LineKind::Adjustments | LineKind::Weights | LineKind::Openings
        )
    }
}

// A line whose first byte, after spaces and separators, is a letter, or a double quote with a letter after it, is a heading.
#[tactic(auto, unfolding(crate::specs::Kinds::kind_of))]
pub fn kind_of(line: Text<'_>) -> LineKind
    ensures { result ≡ meaning.kind_of line.entry.separator line.entry.bytes.now }
{
    let content = from(line.bytes, |byte| is_content(byte, line.separator));
    if content.is_empty() {
        return blank_or_separators(line.bytes);
    }
    if begins_heading(content) {
        return heading_of(line.word(0));
    }
    LineKind::Row
}

// A line with neither figures nor words.
fn blank_or_separators(line: &[u8]) -> LineKind
    ensures { result ≡ meaning.blank_or_separators (from is_no_space line.now) }
{
    if from(line, |byte| byte != b' ').is_empty() {
        LineKind::Blank
    } else {
        LineKind::Separators
    }
}

// Whether a text begins with a letter, or with a double quote and a letter.
#[tactic(auto, using(crate::proofs::KindsOfLines::without_quote))]
fn begins_heading(text: &[u8]) -> bool
    ensures { result ≡ meaning.begins_heading text.now }
{
    begins_with_letter(text.strip_prefix(b"\"").unwrap_or(text))
}

// One chain of the library, under a contract by the definition's name.
fn begins_with_letter(text: &[u8]) -> bool
    ensures { result ≡ meaning.begins_with_letter text.now }
{
    text.first().is_some_and(|byte| byte.is_ascii_alphabetic())
}

#[tactic(auto, unfolding(crate::specs::Kinds::heading_of))]
fn heading_of(name: &[u8]) -> LineKind
    ensures { result ≡ meaning.heading_of name.now }
{
    if is_either(name, b"payments", b"paid") {
        LineKind::Payments
    } else if is_either(name, b"adjustments", b"incurred") {
        LineKind::Adjustments
    } else if is_word(name, b"weights") {
        LineKind::Weights
    } else if is_word(name, b"openings") {
        LineKind::Openings
    } else if is_word(name, b"cut") {
        LineKind::Cut
    } else if is_word(name, b"cell") {
        LineKind::Cell
    } else {
        LineKind::Unknown
    }
}

// Whether a word is one of two names.
#[tactic(auto, unfolding(crate::specs::Kinds::is_either))]
pub fn is_either(word: &[u8], name: &[u8], other: &[u8]) -> bool
    ensures { result ≡ meaning.is_either word.now name.now other.now }
{
    is_word(word, name) | is_word(word, other)
}
