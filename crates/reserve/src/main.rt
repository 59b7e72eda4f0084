// Reads a triangle as text, from the file that is named or from standard input, and prints its reserves or why it is refused.
// docs/FORMAT.md says what is read and what is printed.
#![tactic(auto)]

mod answer;
mod call;
mod completed_tables;
mod fault;
mod printing;
mod refused;
mod tables_of_answer;

use printed::line::Line;
use printing::print_line;
use std::env::{Env, FillError};
use std::fs::File;
use std::io::Read;
use std::rt::Files;
use std::{io, str};
use text::lines::LONGEST_TEXT;

// The name of a file has at most as many bytes, and one byte more of 0 after them.
const LONGEST_NAME: usize = 4095;

fn main(rt: HostRuntime) -> io::Result<()> {
    if is_given(&rt, 2) {
        return rt.eprintln("usage: reserve [FILE]");
    }
    let mut name = [0u8; LONGEST_NAME + 1];
    match rt.arg(1, &mut name) {
        Ok(length) => read_named(&rt, &name[..length]),
        Err(FillError::NotPresent) => read_from(&rt, rt.reader(), "standard input"),
        Err(FillError::TooLong) => rt.eprintln("the name of the file: File name too long"),
    }
}

// Whether there is an argument of this number. Only its length is asked for.
fn is_given(rt: &impl Env, number: usize) -> bool {
    !matches!(rt.arg(number, &mut []), Err(FillError::NotPresent))
}

fn read_named(rt: &(impl Files + Print + Eprint + AllocGlobal), name: &[u8]) -> io::Result<()> {
    let Ok(name) = str::from_utf8(name) else {
        return rt.eprintln("the name of the file: invalid data");
    };
    if name == "-" {
        return rt.eprintln("-: expected the name of a file; without one, standard input is read");
    }
    match File::open(rt, name) {
        Ok(file) => read_from(rt, file, name),
        Err(error) if name.len() > LONGEST_NAME => fail(rt, "the name of the file", error),
        Err(error) => fail(rt, name, error),
    }
}

// A text that is not read to its end is not answered. What cannot be written is said once, with the system's reason.
fn read_from<R: Read + Drop>(
    rt: &(impl Print + Eprint + AllocGlobal),
    from: R,
    name: &str,
) -> io::Result<()> {
    let mut text = Vec::new(rt.alloc());
    let mut first = from.take(LONGEST_TEXT as u64 + 1);
    if let Err(error) = first.read_to_end(&mut text) {
        return fail(rt, name, error);
    }
    print_answer(rt, text.as_slice()).or_else(|error| fail(rt, "standard output", error))
}

fn print_answer(rt: &impl Print, text: &[u8]) -> io::Result<()> {
    if text.len() > LONGEST_TEXT {
        return print_line(
            rt,
            Line::of(b"refused: expected a text of at most 65,536 bytes"),
        );
    }
    answer::answer(rt, text)
}

// Says on standard error what failed, and why.
fn fail(rt: &(impl Eprint + AllocGlobal), what: &str, error: io::Error) -> io::Result<()> {
    let told = format!(in rt.alloc(); "{error}")?;
    let reason = without_number(told.as_str());
    rt.eprintln(format_args!("{what}: {reason}"))
}

// An error's text, without the number that the system gives the error.
fn without_number(told: &str) -> &str {
    match told.split_once(" (os error ") {
        Some((reason, _number)) => reason,
        None => told,
    }
}
