// What is printed of a text that is malformed.
use crate::printing::{print_line, print_two};
use blocks::faults::Fault;
use malformed::messages::{advice, fault_line};
use met_text::met::met_at;
use std::io;
use triangle_text::reading::without_mark;

// Where the fault is, what was expected there and what was met, and what to do about it, where there is something to say.
pub(crate) fn print_fault(rt: &impl Print, text: &[u8], fault: Fault) -> io::Result<()> {
    let met = met_at(without_mark(text), fault.line, fault.cell);
    let first = fault_line(fault, met);
    match advice(fault.expected, met) {
        Some(second) => print_two(rt, first, second),
        None => print_line(rt, first),
    }
}
