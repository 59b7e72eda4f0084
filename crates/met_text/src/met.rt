// What was met where a fault is: a line, or one of its cells.
ghost use Rattle.std.specs.Prelude.{◌≡◌};
ghost use Rattle.std.specs.Option.{option_copied};
ghost use Rattle.met_text.specs.Met as meaning;

use line_parts::cells::{Text, separator_of, trimmed};
use text::lines::line_at;
use text::search::{find, from};

// At this line and cell of a text, which count from 1. The cell is 0 where the whole line is meant.
// It is no Option: a fault of a text has that number, in FORMAT.md's definition and its worked texts.
#[tactic(auto, unfolding(crate::specs::Met::met_at))]
pub fn met_at(text: &[u8], line: usize, cell: usize) -> &[u8]
    ensures { result.now ≡ meaning.met_at line cell text.now }
{
    let whole = line_at(text, line);
    if cell == 0 {
        return trimmed(whole);
    }
    let fields = Text {
        bytes: whole,
        separator: separator_of(text),
    };
    met_first(fields.from_field(cell - 1))
}

// The first cell of what is left of a line. One that begins with a double quote goes on to the next double quote.
#[tactic(auto, unfolding(crate::specs::Met::met_first))]
fn met_first(rest: Text<'_>) -> &[u8]
    ensures { result.now ≡ meaning.met_first rest.entry.separator rest.entry.bytes.now }
{
    match quoted(from(rest.bytes, |byte| byte != b' ')) {
        Some(quoted) => quoted,
        None => rest.first_cell(),
    }
}

// The text in double quotes that stands at the start of another, with its quotes.
#[tactic(auto, unfolding(crate::specs::Met::quoted_length))]
fn quoted(text: &[u8]) -> Option<&[u8]>
    ensures { option_copied result ≡ meaning.quoted text.now }
{
    let rest = text.strip_prefix(b"\"")?;
    let inside = find(rest, |byte| byte == b'"');
    if inside == rest.len() {
        return None;
    }
    Some(&text[..inside + 2])
}
