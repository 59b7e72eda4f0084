// One unseen cell alone.
ghost use Rattle.std.specs.Prelude.{◌≡◌};
ghost use Rattle.printed.specs.Line.{LineIs};
ghost use Rattle.tables.specs.OneCell as meaning;

use completed::places::FutureFigure;
use printed::filling::filled;
use printed::line::Line;
use written_figures::writing::amount;

pub fn cell_title(accident_year: i64, development_year: i64) -> Line
    ensures { LineIs (meaning.cell_title accident_year development_year) result }
{
    filled(
        b"Accident year @ in development year @, in units",
        &[accident_year, development_year],
    )
}

// The width of the widest of three figures, in millionths. They stand by themselves: this crate knows no projection, whose movement they are.
#[tactic(auto, using(integers::proofs::MachineArithmetic::held), unfolding(crate::specs::OneCell::cell_column))]
pub fn cell_column(payment: i64, adjustment: i64, outstanding: i64) -> usize
    ensures { result ≡ meaning.cell_column payment adjustment outstanding }
{
    amount(payment)
        .width
        .max(amount(adjustment).width)
        .max(amount(outstanding).width)
}

// One of the figures after its name, in millionths.
#[tactic(auto, using(integers::proofs::MachineArithmetic::held, printed::proofs::LineTexts::line_after), unfolding(crate::specs::OneCell::cell_line))]
pub fn cell_line(figure: FutureFigure, millionths: i64, column: usize) -> Line
    ensures { LineIs (meaning.cell_line figure millionths column) result }
{
    figure_name(figure).with_entry(amount(millionths).text(), column)
}

fn figure_name(figure: FutureFigure) -> Line
    ensures { LineIs (meaning.figure_name figure) result }
{
    match figure {
        FutureFigure::Payment => Line::of(b"    payment"),
        FutureFigure::Adjustment => Line::of(b" adjustment"),
        FutureFigure::Outstanding => Line::of(b"outstanding"),
    }
}
