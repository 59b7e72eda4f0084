// The rows under a heading, as the list that a call lends.
ghost use Rattle.std.specs.Prelude.{◌≡◌, ◌+◌, ◌≤◌, length};
ghost use Rattle.text.specs.Lines.{lines};
ghost use Rattle.row_text.specs.Rows.{ReadAs};
ghost use Rattle.blocks.specs.Blocks.{row_in, block_from, at_line, Room, LinesInput, RowRead};

use crate::faults::{Expected, Fault};
use crate::row_line::RowLine;
use line_kinds::kinds::{LineKind, kind_of};
use line_parts::cells::Text;
use row_text::rows::{WrongCell, read_row};
use text::lines::Lines;

// A triangle of n rows, the first with n cells and each with one less than that before it, its cut, and whether it is cumulated.
#[derive(Clone, Copy)]
pub struct TriangleShape {
    pub n: usize,
    pub cut: usize,
    pub cumulated: bool,
}

// What the rows under a heading are.
#[derive(Clone, Copy)]
pub enum Shape {
    Triangle(TriangleShape),
    Openings,
}

// Reads the lines below a heading, which come after so many lines, up to the next heading, and answers how many numbers they have.
pub fn read_lines(
    below: Lines<'_>,
    separator: u8,
    number: usize,
    shape: Shape,
    list: &mut [i64],
) -> Result<usize, Fault>
    requires { LinesInput (lines below.rest.now) number shape (length list.old) }
    ensures { ReadAs (block_from separator shape number 0 (length list.old) (lines below.entry.rest.now)) result list.new }
{
    // Counted here: rows are only some of the lines, and how many numbers a row of openings has only its reading tells.
    let mut count = 0;
    let mut rows = 0;
    // Counted on from the heading's own line: enumerate would count from 0, and what is told of a line would be told of a sum.
    let mut number = number;
    for bytes in below {
        number += 1;
        let text = Text { bytes, separator };
        let kind = kind_of(text);
        if kind.is_heading() {
            return Ok(count);
        }
        if kind == LineKind::Row {
            let line = RowLine { text, number };
            count += read_row_of(line, shape, rows, &mut list[count..])?;
            rows += 1;
        }
    }
    Ok(count)
}

// Reads a row after so many others.
fn read_row_of(
    line: RowLine<'_>,
    shape: Shape,
    rows: usize,
    list: &mut [i64],
) -> Result<usize, Fault>
    requires { Room shape rows (length list.old) }
    ensures { RowRead shape (rows + 1) (row_in line.entry.text.separator shape line.entry.number rows (length list.old) line.entry.text.bytes.now) result list.new }
{
    match shape {
        Shape::Triangle(triangle) => read_of_triangle(line, triangle, rows, list),
        Shape::Openings => at_line(line.number, read_row(line.text, 0, false, true, list)),
    }
}

fn read_of_triangle(
    line: RowLine<'_>,
    triangle: TriangleShape,
    rows: usize,
    list: &mut [i64],
) -> Result<usize, Fault>
    requires { Room (Shape.Triangle triangle) rows (length list.old) }
    ensures { RowRead (Shape.Triangle triangle) (rows + 1) (row_in line.entry.text.separator (Shape.Triangle triangle) line.entry.number rows (length list.old) line.entry.text.bytes.now) result list.new }
{
    if triangle.n <= rows {
        return Err(Fault {
            line: line.number,
            cell: 0,
            expected: Expected::NoFurtherRow,
        });
    }
    let missing = triangle.cut.saturating_sub(rows + 1);
    let row = &mut list[..triangle.n - rows];
    at_line(
        line.number,
        read_row(line.text, missing, triangle.cumulated, false, row),
    )
}

// What was read of the row at the line of this number, of either shape.
fn at_line(number: usize, read: Result<usize, WrongCell>) -> Result<usize, Fault>
    ensures { result ≡ at_line number read }
{
    read.map_err(|wrong| Fault {
        line: number,
        cell: wrong.cell,
        expected: Expected::InCell(wrong.expected),
    })
}
