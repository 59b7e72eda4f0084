// The table of the ratios' sums.
ghost use Rattle.std.specs.Prelude.{◌≡◌, ◌≤◌, ◌<◌};
ghost use Rattle.method.specs.Limits.{most_accident_years};
ghost use Rattle.printed.specs.Line.{LineIs};
ghost use Rattle.printed.specs.Entries.{set_right};
ghost use Rattle.tables.specs.SumsRows as meaning;

use printed::columns::widest;
use printed::counts::signed;
use printed::line::Line;
use ratios::Sums;
use verdicts::limits::DEVELOPMENT_YEARS;
use written_figures::writing::whole;

pub fn sums_title() -> Line
    ensures { LineIs meaning.sums_title result }
{
    Line::of(b"Sums of the ratios: payment ratio P / D, adjustment ratio Q / D")
}

pub fn sums_heading(column: usize) -> Line
    ensures { LineIs (meaning.sums_heading column) result }
{
    Line::of(b"development year")
        .with_entry(b"P", column)
        .with_entry(b"Q", column)
        .with_entry(b"D", column)
}

// The row of development year k, whose sums project from that year to the next.
// The ratios stand by themselves, and so does a year with its bound: a struct of n and the ratios would ask for an n that a row does not need.
pub fn sums_row(ratios: &[Sums; DEVELOPMENT_YEARS], k: usize, column: usize) -> Line
    requires { (1 ≤ k) × (k < most_accident_years) }
    ensures { LineIs (meaning.sums_row ratios.now k column) result }
{
    let sums = ratios[k - 1];
    years_label(k)
        .with_entry(whole(sums.payments).text(), column)
        .with_entry(whole(sums.adjustments).text(), column)
        .with_entry(whole(sums.exposure).text(), column)
}

// From this development year to the next, as wide as the heading of its column.
fn years_label(k: usize) -> Line
    requires { k < most_accident_years }
    ensures { LineIs (set_right 16 (meaning.from_year k)) result }
{
    let from = whole(signed(k));
    let to = whole(signed(k + 1));
    Line::empty()
        .with_spaces(12usize.saturating_sub(from.width).saturating_sub(to.width))
        .with_text(from.text())
        .with_text(b" to ")
        .with_text(to.text())
}

// The width of the widest sum, or of a heading. n stands beside: a slice of n − 1 sums would ask for the bound of its length in its place.
#[tactic(auto, unfolding(crate::specs::SumsRows::sums_column))]
pub fn sums_column(n: usize, ratios: &[Sums; DEVELOPMENT_YEARS]) -> usize
    requires { n ≤ most_accident_years }
    ensures { result ≡ meaning.sums_column n ratios.now }
{
    widest(1, 0..n.saturating_sub(1), |place| sums_width(ratios[place]))
}

fn sums_width(sums: Sums) -> usize
    ensures { result ≡ meaning.sums_width sums }
{
    whole(sums.payments)
        .width
        .max(whole(sums.adjustments).width)
        .max(whole(sums.exposure).width)
}
