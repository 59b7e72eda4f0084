// Lines that are printed. Each function answers whether its lines were written, and prints nothing after the first that was not.
use printed::line::{Line, ROOM};
use std::io;

pub(crate) fn print_line(rt: &impl Print, line: Line) -> io::Result<()> {
    let ended = line.with_byte(b'\n');
    rt.write_all(&ended.bytes[..ended.length.min(ROOM)])
}

pub(crate) fn print_empty_line(rt: &impl Print) -> io::Result<()> {
    rt.write_all(b"\n")
}

pub(crate) fn print_two(rt: &impl Print, first: Line, second: Line) -> io::Result<()> {
    print_line(rt, first)?;
    print_line(rt, second)
}
