// What is printed of a refusal by a question.
use crate::call::ReadText;
use crate::printing::{print_line, print_two};
use headings::places::{find_heading, row_line};
use line_kinds::kinds::LineKind;
use line_parts::cells::Text;
use refusals::counts::count_of;
use refusals::found::{Lent, found_at};
use refusals::lines::{InText, in_text, refused_line, see_line, see_lines, sentence};
use std::io;
use triangle_text::reading::without_mark;
use verdicts::verdict::Refusal;

pub(crate) fn print_refusal(
    rt: &impl Print,
    read: ReadText<'_, '_>,
    refusal: Refusal,
) -> io::Result<()> {
    let question = refusal.question.number();
    let lent = Lent::of(read.triangle, read.asked.cell);
    let found = found_at(read.triangle, refusal.place);
    print_two(
        rt,
        refused_line(question, refusal.place),
        sentence(question, refusal.place, lent, found),
    )?;
    print_where(
        rt,
        Text::new(without_mark(read.text)),
        in_text(question, found),
        count_of(refusal.place.accident_year),
    )
}

// Where the text has it: row i of a block, or a heading.
fn print_where(rt: &impl Print, text: Text<'_>, wrong: InText, i: usize) -> io::Result<()> {
    match wrong {
        InText::Nowhere => Ok(()),
        InText::PaymentsRow => print_see(rt, row_line(text, LineKind::Payments, i)),
        InText::AdjustmentsRow => print_see(rt, row_line(text, LineKind::Adjustments, i)),
        InText::WeightsRow => print_see(rt, row_line(text, LineKind::Weights, i)),
        InText::OpeningsHeading => {
            let heading = find_heading(text, LineKind::Openings);
            print_see(rt, heading.map(|heading| heading.line))
        }
        InText::BothRows => {
            let payments = row_line(text, LineKind::Payments, i);
            match payments.zip(row_line(text, LineKind::Adjustments, i)) {
                Some((first, second)) => print_line(rt, see_lines(first, second)),
                None => Ok(()),
            }
        }
    }
}

// A line that the text does not have is not named.
fn print_see(rt: &impl Print, line: Option<usize>) -> io::Result<()> {
    match line {
        Some(line) => print_line(rt, see_line(line)),
        None => Ok(()),
    }
}
