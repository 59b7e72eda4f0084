// A whole text, read into the lists that a call lends.
ghost use Rattle.std.specs.Prelude.{◌≡◌, true, ◌≤◌, nat_abs, length, pos, IfOk};
ghost use Rattle.method.specs.Limits.{most_accident_years};
ghost use Rattle.method.specs.Triangle.{amounts_length};
ghost use Rattle.text.specs.Bytes.{longest_text};
ghost use Rattle.text.specs.Lines.{lines};
ghost use Rattle.headings.specs.Places.{rows_in, lines_under};
ghost use Rattle.row_text.specs.Rows.{ReadAs};
ghost use Rattle.triangle_text.specs.Reading as meaning;
ghost use Rattle.triangle_text.specs.Reading.{TextReadAs, Within};

use crate::short_text::ShortText;
use blocks::faults::{Expected, Fault};
use blocks::lines::{Shape, TriangleShape, read_lines};
use blocks::weights::default_weights;
use heading_faults::first_fault;
use headings::places::{find_heading, is_cumulated, number_after};
use line_kinds::kinds::LineKind;
use line_parts::cells::Text;
use verdicts::lengths::{SEEN_CELLS, WEIGHTED_CELLS};
use verdicts::limits::{ACCIDENT_YEARS, FEWEST_YEARS, MOST_YEARS, from_to};
use verdicts::verdict::Place;

// What the headings say: the number of accident years, the cut, how the amounts are to be read, whether weights are given,
// and the cell that is asked for alone, where one is.
#[derive(Clone, Copy)]
pub struct Asked {
    pub years: i64,
    pub cut: i64,
    pub payments_cumulated: bool,
    pub adjustments_cumulated: bool,
    pub weights_given: bool,
    pub cell: Option<Place>,
}

// What is asked, and how many numbers of each list were read. The lists are arrays with these counts beside them,
// since one that grows would allocate, and a call that needs no memory would then fail where there is none.
#[derive(Clone, Copy)]
pub struct TextRead {
    pub asked: Asked,
    pub payments: usize,
    pub adjustments: usize,
    pub weights: usize,
    pub openings: usize,
}

// Reads a text into the lists from their left, or answers its first fault; what the lists then hold is left open.
// Lists are read where questions 1 and 2 accept the number of accident years and the cut; elsewhere they are empty.
// The four lists are handed in one by one: a struct of lent lists would be made by the one caller and taken apart in read_lists, no plainer.
pub fn read_text(
    bytes: &[u8],
    payments: &mut [i64; SEEN_CELLS],
    adjustments: &mut [i64; SEEN_CELLS],
    weights: &mut [i64; WEIGHTED_CELLS],
    openings: &mut [i64; ACCIDENT_YEARS],
) -> Result<TextRead, Fault>
    requires { length bytes.now ≤ longest_text }
    ensures read { TextReadAs (meaning.reading bytes.now) result
        payments.new adjustments.new weights.new openings.new }
    ensures within { IfOk result (λ read. Within read payments.new adjustments.new weights.new openings.new) }
{
    let text = Text::new(without_mark(bytes));
    first_fault(text)?;
    let short = ShortText { text };
    let asked = asked_in(short);
    if lists_wanted(asked.years, asked.cut) {
        read_lists(short, asked, payments, adjustments, weights, openings)
    } else {
        Ok(TextRead {
            asked,
            payments: 0,
            adjustments: 0,
            weights: 0,
            openings: 0,
        })
    }
}

// A text without the byte order mark at its start.
#[tactic(auto, using(crate::proofs::Mark::mark_left_out))]
pub fn without_mark(bytes: &[u8]) -> &[u8]
    ensures { result.now ≡ meaning.without_mark bytes.now }
{
    bytes.strip_prefix(&[0xEF, 0xBB, 0xBF]).unwrap_or(bytes)
}

// What the headings say.
fn asked_in(short: ShortText<'_>) -> Asked
    ensures { result ≡ meaning.asked_in short.entry.text.separator (lines short.entry.text.bytes.now) }
{
    let text = short.text;
    Asked {
        years: years_in(short),
        cut: number_after(text, LineKind::Cut, 1).unwrap_or(1),
        payments_cumulated: is_cumulated(text, LineKind::Payments),
        adjustments_cumulated: is_cumulated(text, LineKind::Adjustments),
        weights_given: find_heading(text, LineKind::Weights).is_some(),
        cell: cell_in(text),
    }
}

// The number of rows of payments.
fn years_in(short: ShortText<'_>) -> i64
    ensures { result ≡ pos (rows_in short.entry.text.separator (lines_under short.entry.text.separator LineKind.Payments (lines short.entry.text.bytes.now))) }
{
    match find_heading(short.text, LineKind::Payments) {
        Some(payments) => payments.count_rows() as i64,
        None => 0,
    }
}

fn cell_in(text: Text<'_>) -> Option<Place>
    ensures { result ≡ meaning.cell_in text.entry.separator (lines text.entry.bytes.now) }
{
    find_heading(text, LineKind::Cell)?;
    Some(Place {
        accident_year: number_after(text, LineKind::Cell, 1).unwrap_or(0),
        development_year: number_after(text, LineKind::Cell, 2).unwrap_or(0),
    })
}

// Whether questions 1 and 2 accept.
fn lists_wanted(years: i64, cut: i64) -> bool
    ensures { result ≡ meaning.lists_wanted years cut }
{
    from_to(FEWEST_YEARS, MOST_YEARS, years) && from_to(1, years - 1, cut)
}

// Reads the four lists, of n years and a cut that questions 1 and 2 accept.
fn read_lists(
    short: ShortText<'_>,
    asked: Asked,
    payments: &mut [i64; SEEN_CELLS],
    adjustments: &mut [i64; SEEN_CELLS],
    weights: &mut [i64; WEIGHTED_CELLS],
    openings: &mut [i64; ACCIDENT_YEARS],
) -> Result<TextRead, Fault>
    requires { meaning.lists_wanted asked.years asked.cut ≡ true }
    ensures { TextReadAs (meaning.lists_in short.entry.text.separator (lines short.entry.text.bytes.now) asked (nat_abs asked.years) (nat_abs asked.cut)) result
        payments.new adjustments.new weights.new openings.new }
{
    let n = asked.years as usize;
    let cut = asked.cut as usize;
    let payments = read_triangle(short, LineKind::Payments, n, cut, payments)?;
    let adjustments = read_triangle(short, LineKind::Adjustments, n, cut, adjustments)?;
    let weights = read_weights(short, n - 1, cut, weights)?;
    let openings = read_openings(short, openings)?;
    Ok(TextRead {
        asked,
        payments,
        adjustments,
        weights,
        openings,
    })
}

// Reads a triangle under a heading. With a cut above 1 it cannot be cumulated.
// n and the length of its list are asked of it and of the weights alone: a type of the two would be asked of openings too, which have no n.
fn read_triangle(
    short: ShortText<'_>,
    heading: LineKind,
    n: usize,
    cut: usize,
    list: &mut [i64],
) -> Result<usize, Fault>
    requires { (n ≤ most_accident_years) × (amounts_length n ≤ length list.old) }
    ensures { ReadAs (meaning.triangle_under short.entry.text.separator (lines short.entry.text.bytes.now) heading n cut (length list.old)) result list.new }
{
    let Some(found) = find_heading(short.text, heading) else {
        return Ok(0);
    };
    let cumulated = is_cumulated(short.text, heading);
    if cumulated & (1 < cut) {
        return Err(Fault {
            line: found.line,
            cell: 0,
            expected: Expected::Incremental,
        });
    }
    let shape = Shape::Triangle(TriangleShape { n, cut, cumulated });
    read_lines(found.rows, short.text.separator, found.line, shape, list)
}

// Reads the weights, or fills them in where the text has none.
fn read_weights(
    short: ShortText<'_>,
    n: usize,
    cut: usize,
    list: &mut [i64],
) -> Result<usize, Fault>
    requires { (n ≤ most_accident_years) × (amounts_length n ≤ length list.old) }
    ensures { ReadAs (meaning.weights_under short.entry.text.separator (lines short.entry.text.bytes.now) n cut (length list.old)) result list.new }
{
    if find_heading(short.text, LineKind::Weights).is_none() {
        return Ok(default_weights(n, cut, list));
    }
    read_triangle(short, LineKind::Weights, n, cut, list)
}

// Reads the openings, as many as there are.
fn read_openings(short: ShortText<'_>, list: &mut [i64]) -> Result<usize, Fault>
    requires { length list.old ≤ most_accident_years }
    ensures { ReadAs (meaning.openings_under short.entry.text.separator (lines short.entry.text.bytes.now) (length list.old)) result list.new }
{
    let Some(found) = find_heading(short.text, LineKind::Openings) else {
        return Ok(0);
    };
    read_lines(
        found.rows,
        short.text.separator,
        found.line,
        Shape::Openings,
        list,
    )
}
