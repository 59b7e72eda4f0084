// The three tables of a completed triangle, each in as many parts as it needs.
ghost use Rattle.std.specs.Prelude.{◌≤◌};
ghost use Rattle.method.specs.Limits.{most_accident_years};

use crate::printing::{print_empty_line, print_line};
use completed::shown::CompletedLists;
use completed_table::completed_rows::{
    CompletedTable, Part, Table, last_in_part, table_title, years_heading,
};
use std::io;

pub(crate) fn print_completed(
    rt: &impl Print,
    n: usize,
    lists: CompletedLists<'_>,
) -> io::Result<()>
    requires { n ≤ most_accident_years }
{
    for table in [Table::Payments, Table::Adjustments, Table::Outstandings] {
        print_table(rt, CompletedTable { table, n, lists })?;
    }
    Ok(())
}

fn print_table(rt: &impl Print, table: CompletedTable<'_>) -> io::Result<()> {
    let column = table.column();
    print_empty_line(rt)?;
    print_line(rt, table_title(table.table))?;
    // Each turn prints a part, of as many years as have room, and counts nothing by one.
    let mut before = 0;
    while before < table.n {
        let last = last_in_part(table.n, before, column);
        print_part(
            rt,
            table,
            Part {
                before,
                last,
                column,
            },
        )?;
        before = last;
    }
    Ok(())
}

// A part, with an empty line before it unless it is the first.
fn print_part(rt: &impl Print, table: CompletedTable<'_>, part: Part) -> io::Result<()>
    requires { part.last ≤ table.n }
{
    print_years(rt, part)?;
    for i in 1..table.n + 1 {
        print_line(rt, table.row(i, part))?;
    }
    Ok(())
}

fn print_years(rt: &impl Print, part: Part) -> io::Result<()>
    requires { part.last ≤ most_accident_years }
{
    if part.before > 0 {
        print_empty_line(rt)?;
    }
    print_line(rt, years_heading(part))
}
