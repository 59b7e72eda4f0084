// The lines of a text.
ghost use Rattle.std.specs.Prelude.{◌≡◌};
ghost use Rattle.std.specs.Iterator.{YieldsFirstRef, item_count};
ghost use Rattle.text.specs.Lines.{lines, whole_lines, begins_comment, without_comment, first_of, line_of, AfterLine};
ghost use Rattle.text.specs.Lines as meaning;

use crate::search::{after, find};

// The most bytes that a program reads of a text.
pub const LONGEST_TEXT: usize = 65_536;

// The lines of what is left of a text, one by one, without their ends and their comments.
#[derive(Clone, Copy)]
pub struct Lines<'a> {
    pub rest: &'a [u8],
}

impl<'a> Iterator for Lines<'a> {
    type Item = &'a [u8];

    ghost next_gives = { YieldsFirstRef (λ s. lines s.rest.now) };

    ghost remaining = { item_count (λ s. lines s.rest.now) };

    fn next(&mut self) -> Option<&'a [u8]> {
        if self.rest.is_empty() {
            return None;
        }
        let line = first_line(self.rest);
        self.rest = after_line(self.rest);
        Some(line)
    }
}

// The first line of a text, without its end and its comment; empty where the text is.
#[tactic(auto, using(crate::proofs::FirstLines::first_without_comment))]
pub fn first_line(text: &[u8]) -> &[u8]
    ensures { result.now ≡ first_of (lines text.now) }
{
    without_comment(first_whole_line(text))
}

// What stands before the comment of a line.
fn without_comment(line: &[u8]) -> &[u8]
    ensures { result.now ≡ without_comment line.now }
{
    let mut may_begin = true;
    for (at, byte) in line.iter().enumerate() {
        if may_begin && begins_comment(&line[at..]) {
            return &line[..at];
        }
        may_begin = *byte == b' ';
    }
    line
}

// Whether a number sign and a space stand first, and no carriage return after them.
fn begins_comment(text: &[u8]) -> bool
    ensures { result ≡ begins_comment text.now }
{
    text.starts_with(b"# ") && without_return(text)
}

fn without_return(text: &[u8]) -> bool
    ensures { result ≡ meaning.without_return text.now }
{
    !text.contains(&b'\r')
}

// The first line of a text with its comment. A carriage return before a line feed is no part of it.
fn first_whole_line(text: &[u8]) -> &[u8]
    ensures { result.now ≡ first_of (whole_lines text.now) }
{
    let end = find(text, |byte| byte == b'\n');
    let line = &text[..end];
    if end == text.len() {
        return line;
    }
    line.strip_suffix(b"\r").unwrap_or(line)
}

// A text after its first line.
pub fn after_line(text: &[u8]) -> &[u8]
    ensures { AfterLine text.now result.now }
{
    after(text, |byte| byte == b'\n')
}

// A line of a text, counted from 1, without its end and its comment; empty where there are fewer.
// The lines before it are passed by their ends, and not by `nth` of `Lines`, which looks for the comment of each.
pub fn line_at(text: &[u8], number: usize) -> &[u8]
    ensures { result.now ≡ line_of number (lines text.now) }
{
    let before = number.saturating_sub(1);
    let mut rest = text;
    for _ in 0..before {
        if rest.is_empty() {
            break;
        }
        rest = after_line(rest);
    }
    first_line(rest)
}
