// A review over three layers: a book file and a series are joined, and one rule of both is suspended. Reading is
// then no longer enabled, so that the one step of the case is a breach, whose line is printed.
#![tactic(auto)]

use bookfile::{FileBook, Names};
use books::Book;
use joint::Joint;
use report::report_line;
use review::Review;
use series::{Movement, Series};
use std::io;
use std::io::Write;
use suspension::Suspension;

// Instances enter, read, write and record. Its one rule: record is created where read is triggered.
const BOOK: [u8; 59] =
    *b"\x00\x01\x00\x1c\x01\x00\x00\x0b\x00\x00\x00\x00\x00\x00\x00\x00\x00\x00\x00\x00\x00\x00\x00\x00\x00\x00\x00\x00\x00\x00\x00\x00\x00\x00\x04\x05enter\x04read\x05write\x06record";

// Enter is enabled; as a series of three, so are read and write.
const ROW: [u8; 32] =
    *b"\x00\x02\x00\x00\x00\x00\x00\x00\x00\x00\x00\x00\x00\x00\x00\x00\x00\x00\x00\x00\x00\x00\x00\x00\x00\x00\x00\x00\x00\x00\x00\x00";

// The head moves up an instance from rule to rule.
const MOVEMENT: Movement = Movement {
    width: 1,
    count: 3,
    moving: 1,
};

// Longer than any line.
const LINE: usize = 64;

// Prints the line of the first finding, if there is one.
fn print_first<B: Book>(rt: &HostRuntime, review: &Review<B>, names: &Names<'_>) -> io::Result<()> {
    let mut buffer = [0; LINE];
    match report_line(review, 0, names, &mut buffer) {
        Ok(length) => rt.stdout().write_all(&buffer[..length]),
        Err(_) => Ok(()),
    }
}

fn main(rt: HostRuntime) -> io::Result<()> {
    let joint = Joint::new(FileBook::new(&BOOK), Series::new(&ROW, MOVEMENT));
    let mut review = Review::new(Suspension::new(joint, &[2]));
    match review.propose(&[11], &[2, 11, 15, 18, 28]) {
        Ok(_) => print_first(&rt, &review, &Names::new(&BOOK)),
        Err(_) => Ok(()),
    }
}
