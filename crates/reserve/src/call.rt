// The call of the engine that a text asks for, and what is printed of its answer.
use crate::printing::{print_empty_line, print_line, print_two};
use crate::refused::print_refusal;
use crate::tables_of_answer::print_tables;
use calls::reserve::reserve;
use completed::places::FutureFigure;
use lent::Triangle;
use projection::Movement;
use ratios::Development;
use refusals::counts::count_of;
use single_cell::single_cell;
use std::io;
use tables::accepted::{
    accepted_line, adjustments_line, openings_line, payments_line, weights_line,
};
use tables::one_cell::{cell_column, cell_line, cell_title};
use triangle::reading::read;
use triangle_text::reading::Asked;
use verdicts::lengths::{FUTURE_FIGURES, RESERVE_FIGURES, future_length, reserves_length};
use verdicts::verdict::{Place, Refusal};

// A text, what it asks for, and the triangle that was read from it.
#[derive(Clone, Copy)]
pub(crate) struct ReadText<'t, 'l> {
    pub(crate) text: &'t [u8],
    pub(crate) asked: Asked,
    pub(crate) triangle: Triangle<'l>,
}

pub(crate) fn call(rt: &impl Print, read: ReadText<'_, '_>) -> io::Result<()> {
    match read.asked.cell {
        Some(cell) => call_cell(rt, read, cell),
        None => call_reserve(rt, read),
    }
}

fn call_cell(rt: &impl Print, read: ReadText<'_, '_>, cell: Place) -> io::Result<()> {
    match single_cell(read.triangle, cell) {
        Ok(figures) => print_cell(rt, read.asked, cell, figures),
        Err(refusal) => print_refusal(rt, read, refusal),
    }
}

fn print_cell(rt: &impl Print, asked: Asked, cell: Place, figures: Movement) -> io::Result<()> {
    let payment = figures.payment.0;
    let adjustment = figures.adjustment.0;
    let outstanding = figures.outstanding.0;
    print_accepted(rt, asked)?;
    print_empty_line(rt)?;
    let column = cell_column(payment, adjustment, outstanding);
    let title = cell_title(cell.accident_year, cell.development_year);
    print_two(rt, title, cell_line(FutureFigure::Payment, payment, column))?;
    print_two(
        rt,
        cell_line(FutureFigure::Adjustment, adjustment, column),
        cell_line(FutureFigure::Outstanding, outstanding, column),
    )
}

// That the triangle is accepted, and how it was read.
fn print_accepted(rt: &impl Print, asked: Asked) -> io::Result<()> {
    print_two(
        rt,
        accepted_line(asked.years, asked.cut),
        payments_line(asked.payments_cumulated),
    )?;
    print_two(
        rt,
        adjustments_line(asked.adjustments_cumulated),
        weights_line(asked.weights_given),
    )?;
    if asked.cut > 1 {
        print_line(rt, openings_line())
    } else {
        Ok(())
    }
}

// Makes the two answer lists, of the lengths that an accepted call wants.
fn call_reserve(rt: &impl Print, read: ReadText<'_, '_>) -> io::Result<()> {
    let mut future = [0; FUTURE_FIGURES];
    let mut reserves = [0; RESERVE_FIGURES];
    let n = count_of(read.asked.years);
    let future = &mut future[..future_length(n)];
    let reserves = &mut reserves[..reserves_length(n)];
    match answered(read.triangle, future, reserves) {
        Ok(development) => {
            print_accepted(rt, read.asked)?;
            print_tables(rt, read.triangle, development, future, reserves)
        }
        Err(refusal) => print_refusal(rt, read, refusal),
    }
}

// Fills the answer lists; the development of a triangle that is accepted is printed too.
fn answered(
    triangle: Triangle<'_>,
    future: &mut [i64],
    reserves: &mut [i64],
) -> Result<Development, Refusal> {
    reserve(triangle, future, reserves)?;
    read(triangle, None)
}
