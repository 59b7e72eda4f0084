// Works the cases that it reads, a line each, and prints a line for each: what document 01 leaves to a runner.
// tools/runner_stdout.py writes the cases, which are the file stdin, and what must be printed, which is the file stdout.
#![tactic(auto)]

mod case_line;
mod cell_call;
mod example_1;
mod example_1_tables;
mod numbers;
mod printing;
mod reserve_call;
mod row_call;

use std::io;
use std::io::Read;
use text::lines::LONGEST_TEXT;

fn main(rt: HostRuntime) -> io::Result<()> {
    let mut cases = Vec::new(rt.alloc());
    let mut input = rt.reader().take(LONGEST_TEXT as u64);
    // A read that fails ends the input.
    let _ = input.read_to_end(&mut cases);
    work_lines(&rt, cases.as_slice());
    example_1::compare(&rt);
    Ok(())
}

fn work_lines(rt: &impl Print, cases: &[u8]) {
    for line in cases.split_inclusive(|byte| *byte == b'\n') {
        case_line::work(rt, line.strip_suffix(b"\n").unwrap_or(line));
    }
}
