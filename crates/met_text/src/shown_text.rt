// A part of the text, as it is shown in a message.
ghost use Rattle.std.specs.Prelude.{◌≡◌, map, take};
ghost use Rattle.printed.specs.Line.{After};
ghost use Rattle.met_text.specs.ShownText as meaning;
ghost use Rattle.met_text.specs.ShownText.{shown_text, shown_byte};

use printed::line::Line;

// A line with what was met after it.
#[tactic(auto, unfolding(crate::specs::ShownText::shown_text))]
pub fn with_shown(line: Line, met: &[u8]) -> Line
    ensures { After line (shown_text met.now) result }
{
    if met.is_empty() {
        return line.with_text(b"a blank cell");
    }
    if met.len() <= MOST_SHOWN {
        return with_first_bytes(line, met);
    }
    with_first_bytes(line, met).with_text(b"...")
}

const MOST_SHOWN: usize = 40;

// The first bytes, as many as are shown at most.
fn with_first_bytes(line: Line, met: &[u8]) -> Line
    ensures { After line (map shown_byte (take 40 met.now)) result }
{
    let mut longer = line;
    for byte in &met[..MOST_SHOWN.min(met.len())] {
        longer = longer.with_byte(shown_byte(*byte));
    }
    longer
}

// A tab is shown as a space, and every other byte that is no visible character as a question mark.
fn shown_byte(byte: u8) -> u8
    ensures { result ≡ meaning.shown_byte byte }
{
    match byte {
        b'\t' => b' ',
        byte if byte.is_ascii_control() => b'?',
        byte => byte,
    }
}
