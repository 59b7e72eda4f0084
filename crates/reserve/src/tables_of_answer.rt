// The tables of an accepted triangle.
ghost use Rattle.std.specs.Prelude.{◌≤◌};
ghost use Rattle.method.specs.Limits.{most_accident_years};

use crate::completed_tables::print_completed;
use crate::printing::{print_empty_line, print_line, print_two};
use completed::outstanding::ObservedLists;
use completed::shown::CompletedLists;
use lent::Triangle;
use ratios::{Development, Sums};
use refusals::counts::count_of;
use reserve_table::reserve_rows::{ReserveTable, reserves_heading, reserves_title};
use std::io;
use tables::sums_rows::{sums_column, sums_heading, sums_row, sums_title};
use verdicts::limits::DEVELOPMENT_YEARS;

pub(crate) fn print_tables<'a>(
    rt: &impl Print,
    triangle: Triangle<'a>,
    development: Development,
    future: &'a [i64],
    reserves: &'a [i64],
) -> io::Result<()> {
    let n = count_of(triangle.years);
    let lists = CompletedLists {
        cut: count_of(triangle.cut),
        observed: ObservedLists::from(triangle),
        future,
    };
    print_reserves(
        rt,
        ReserveTable {
            outstandings: &development.outstandings[..n],
            reserves,
        },
    )?;
    print_completed(rt, n, lists)?;
    print_sums(rt, n, &development.ratios)
}

fn print_reserves(rt: &impl Print, table: ReserveTable<'_>) -> io::Result<()> {
    let column = table.column();
    print_empty_line(rt)?;
    print_two(rt, reserves_title(), reserves_heading(column))?;
    for i in 1..table.outstandings.len() + 1 {
        print_line(rt, table.row(i, column))?;
    }
    print_line(rt, table.totals_row(column))
}

fn print_sums(rt: &impl Print, n: usize, ratios: &[Sums; DEVELOPMENT_YEARS]) -> io::Result<()>
    requires { n ≤ most_accident_years }
{
    let column = sums_column(n, ratios);
    print_empty_line(rt)?;
    print_two(rt, sums_title(), sums_heading(column))?;
    for k in 1..n {
        print_line(rt, sums_row(ratios, k, column))?;
    }
    Ok(())
}
