// A row of numbers: of a triangle, or of openings.
ghost use Rattle.std.specs.Prelude.{◌≡◌, ◌≤◌, length};
ghost use Rattle.text.specs.Bytes.{longest_text};
ghost use Rattle.line_parts.specs.Cells.{is_empty, from_content};
ghost use Rattle.row_text.specs.Rows.{row_numbers, counted_from, ends_here, ended, occurrences, RowInput, ReadAs};

use crate::entries::{CellFault, Entry, entry_in};
use line_parts::cells::Text;
use text::search::{before, from, is_content};

// The cell that is wrong, counted from 1, and what was expected there.
#[derive(Clone, Copy)]
pub struct WrongCell {
    pub cell: usize,
    pub expected: CellFault,
}

// Reads a row into a list, and answers how many numbers it has: as many as the list has places, or, of openings, as many as the line has and no more than that.
// What follows them is blank.
// Of the row's first cells so many are missing, and may be blank.
// Where the figures are cumulated the list holds what each adds to the one before.
// Behind the numbers, and where a cell is wrong, what the list then holds is left open.
// Both flags are what a text says, of its figures and by its heading: an enum of rows would be no plainer, matched in each place that reads one of them.
pub fn read_row(
    line: Text<'_>,
    missing: usize,
    cumulated: bool,
    openings: bool,
    list: &mut [i64],
) -> Result<usize, WrongCell>
    requires { RowInput line.bytes.now list.old }
    ensures { ReadAs (row_numbers line.entry.separator missing cumulated openings (length list.old) line.entry.bytes.now) result list.new }
{
    let mut rest = line;
    let mut figure = 0;
    for (cells, place) in list.iter_mut().enumerate() {
        if ends_here(rest, openings) {
            return Ok(cells);
        }
        let cell = cells + 1;
        let before = cumulated.then_some(figure);
        let entry = entry_in(rest.first_cell(), cells < missing, before);
        let entry = entry.map_err(|expected| WrongCell { cell, expected })?;
        *place = entry.amount;
        figure = entry.figure;
        rest = rest.after_cell();
    }
    row_end(rest, openings, list.len())
}

// Whether a row of openings ends here: nothing but blank cells is left. Another row ends where the list is full,
// so that what is left of it is not looked through before each of its cells.
fn ends_here(rest: Text<'_>, openings: bool) -> bool
    ensures { result ≡ ends_here openings (from_content rest.entry.separator rest.entry.bytes.now) }
{
    openings && is_blank(rest)
}

fn is_blank(rest: Text<'_>) -> bool
    ensures { result ≡ is_empty (from_content rest.entry.separator rest.entry.bytes.now) }
{
    from(rest.bytes, |byte| is_content(byte, rest.separator)).is_empty()
}

// The list is full after so many cells. Nothing but blank cells may follow, as after the last opening.
// The length of what is left is asked here alone: a type for one function would be no plainer.
fn row_end(rest: Text<'_>, openings: bool, cells: usize) -> Result<usize, WrongCell>
    requires { (cells ≤ 32) × (length rest.bytes.now ≤ longest_text) }
    ensures { result ≡ counted_from cells (ended rest.entry.separator openings cells rest.entry.bytes.now (from_content rest.entry.separator rest.entry.bytes.now)) }
{
    if is_blank(rest) {
        return Ok(cells);
    }
    if openings {
        return Err(WrongCell {
            cell: cells + 1,
            expected: CellFault::NoFurtherOpening,
        });
    }
    let blank = before(rest.bytes, |byte| is_content(byte, rest.separator));
    Err(WrongCell {
        cell: cells + 1 + count(blank, rest.separator),
        expected: CellFault::RowEnd,
    })
}

// How often a byte stands in a text: one chain of the library, under a contract that says what it counts.
fn count(text: &[u8], byte: u8) -> usize
    ensures { result ≡ occurrences byte text.now }
{
    text.iter().filter(|other| **other == byte).count()
}
