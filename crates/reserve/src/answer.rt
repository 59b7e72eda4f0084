// The answer to a text: its lists are read, and the call is made.
ghost use Rattle.std.specs.Prelude.{◌≤◌, length};
ghost use Rattle.text.specs.Bytes.{longest_text};

use crate::call::{ReadText, call};
use crate::fault::print_fault;
use crate::printing::{print_line, print_two};
use lent::Triangle;
use printed::line::Line;
use std::io;
use triangle_text::reading::read_text;
use verdicts::lengths::{SEEN_CELLS, WEIGHTED_CELLS};
use verdicts::limits::ACCIDENT_YEARS;

// The length is asked by itself, here and below: the struct of a short text is triangle_text's own.
pub(crate) fn answer(rt: &impl Print, text: &[u8]) -> io::Result<()>
    requires { length text.now ≤ longest_text }
{
    if text.is_empty() {
        return print_empty(rt);
    }
    if is_no_text(text) {
        return print_no_text(rt);
    }
    if has_returns_only(text) {
        return print_returns_only(rt);
    }
    answer_text(rt, text)
}

fn print_empty(rt: &impl Print) -> io::Result<()> {
    print_line(
        rt,
        Line::of(b"refused: expected a text, and met nothing: the file or the input is empty"),
    )
}

fn print_no_text(rt: &impl Print) -> io::Result<()> {
    print_two(
        rt,
        Line::of(b"refused: expected a text in UTF-8, and met UTF-16 or no text"),
        Line::of(b"Save it as CSV in UTF-8."),
    )
}

fn print_returns_only(rt: &impl Print) -> io::Result<()> {
    print_two(
        rt,
        Line::of(
            b"refused: expected lines that end with a line feed, and met carriage returns only",
        ),
        Line::of(b"Save it as CSV with the line ends of Windows or Linux."),
    )
}

// Whether a text has a carriage return and no line feed.
fn has_returns_only(text: &[u8]) -> bool {
    text.contains(&b'\r') & !text.contains(&b'\n')
}

// Whether the first two bytes are those of UTF-16, or one of them is 0.
fn is_no_text(text: &[u8]) -> bool {
    matches!(text, [0, ..] | [_, 0, ..] | [255, 254, ..] | [254, 255, ..])
}

// A text that was read is answered by a call, or by its first fault.
// Its lists have the fixed room that the reader asks for, and their counts stand in what it answers.
fn answer_text(rt: &impl Print, text: &[u8]) -> io::Result<()>
    requires { length text.now ≤ longest_text }
{
    let mut payments = [0; SEEN_CELLS];
    let mut adjustments = [0; SEEN_CELLS];
    let mut weights = [0; WEIGHTED_CELLS];
    let mut openings = [0; ACCIDENT_YEARS];
    let read = read_text(
        text,
        &mut payments,
        &mut adjustments,
        &mut weights,
        &mut openings,
    );
    match read {
        Ok(read) => {
            let triangle = Triangle {
                years: read.asked.years,
                cut: read.asked.cut,
                payments: &payments[..read.payments],
                adjustments: &adjustments[..read.adjustments],
                weights: &weights[..read.weights],
                openings: &openings[..read.openings],
            };
            call(
                rt,
                ReadText {
                    text,
                    asked: read.asked,
                    triangle,
                },
            )
        }
        Err(fault) => print_fault(rt, text, fault),
    }
}
