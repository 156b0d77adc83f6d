// Judges the case of the folder that it is started in: reads the files `book` and `case`, and prints the
// findings of the steps that stand, and a last line.
#![tactic(auto)]

use bookfile::Names;
use books::Book;
use report::{LineFault, last_line, report_line};
use review::Review;
use run::{RunFault, run_files};
use std::io::{ErrorKind, Write};
use std::{fs, io};

// Longer than any line: a step has at most two digits, a name at most 32 bytes, a spot at most 20 digits.
const LINE: usize = 64;

// The bytes of a file; a missing one is empty.
fn read_or_empty(rt: &HostRuntime, path: &str) -> io::Result<Vec<u8>> {
    match fs::read(rt, path) {
        Err(e) if e.kind() == ErrorKind::NotFound => Ok(Vec::new(rt.alloc())),
        read => read,
    }
}

// Prints a line for each finding.
fn print_findings<B: Book>(
    rt: &HostRuntime,
    review: &Review<B>,
    names: &Names<'_>,
) -> io::Result<()> {
    let mut buffer = [0; LINE];
    for k in 0.. {
        match report_line(review, k, names, &mut buffer) {
            Ok(length) => rt.stdout().write_all(&buffer[..length])?,
            Err(LineFault::List(_)) => break,
            Err(LineFault::Short(_)) => {
                return Err(io::Error::other("a line is longer than the buffer"));
            }
        }
    }
    Ok(())
}

// Prints how many steps stand, or the refusal.
fn print_last<B: Book>(
    rt: &HostRuntime,
    review: &Review<B>,
    outcome: &Result<(), RunFault>,
) -> io::Result<()> {
    let mut buffer = [0; LINE];
    match last_line(review, outcome, &mut buffer) {
        Ok(length) => rt.stdout().write_all(&buffer[..length]),
        Err(_) => Err(io::Error::other("the last line is longer than the buffer")),
    }
}

fn main(rt: HostRuntime) -> io::Result<()> {
    let book = read_or_empty(&rt, "book")?;
    let case = read_or_empty(&rt, "case")?;
    let (review, outcome) = run_files(book.as_slice(), case.as_slice());
    print_findings(&rt, &review, &Names::new(book.as_slice()))?;
    print_last(&rt, &review, &outcome)
}
