// Two officers review the same case, each by clicks of their own, and are told how they stand to each other:
// over a book with a default and its exception, over a book with levels, and over the same rules written in
// another order with one of them repeated.
#![tactic(auto)]

mod clicks;
mod words;

use bookfile::FileBook;
use clicks::{ACCESS, Click, DETOURS, OBJECTION, STRAIGHT, exchanges};
use std::{fs, io};
use two_reviews::compare_reviews;
use words::Words;

// An officer's book and clicks.
#[derive(Clone, Copy)]
struct Officer<'a> {
    book: &'a FileBook<'a>,
    clicks: &'a [Click<'a>],
}

// Has two officers click their ways over their books, and prints how they stand to each other.
fn compare(rt: &HostRuntime, name: &str, one: Officer<'_>, other: Officer<'_>) -> io::Result<()> {
    let mut mine = exchanges(rt.alloc(), one.clicks)?;
    let mut theirs = exchanges(rt.alloc(), other.clicks)?;
    let told = Words(compare_reviews(
        one.book,
        other.book,
        mine.as_mut_slice(),
        theirs.as_mut_slice(),
    ));
    println!(rt; "{name}: {told}")
}

// One book with a default and its exception.
fn over_an_exception(rt: &HostRuntime) -> io::Result<()> {
    let bytes = fs::read(rt, "exception")?;
    let book = FileBook::new(bytes.as_slice());
    compare(
        rt,
        "a default and its exception",
        Officer {
            book: &book,
            clicks: &ACCESS,
        },
        Officer {
            book: &book,
            clicks: &OBJECTION,
        },
    )
}

// One book with levels; and the same rules in another order, one of them repeated.
fn over_levels(rt: &HostRuntime) -> io::Result<()> {
    let bytes = fs::read(rt, "late")?;
    let late = FileBook::new(bytes.as_slice());
    let more = fs::read(rt, "reordered")?;
    let reordered = FileBook::new(more.as_slice());
    let straight = Officer {
        book: &late,
        clicks: &STRAIGHT,
    };
    let detours = Officer {
        book: &late,
        clicks: &DETOURS,
    };
    let straight_reordered = Officer {
        book: &reordered,
        clicks: &STRAIGHT,
    };
    compare(rt, "rules with levels", straight, detours)?;
    compare(
        rt,
        "the same rules in another order",
        detours,
        straight_reordered,
    )
}

fn review(rt: &HostRuntime) -> io::Result<()> {
    over_an_exception(rt)?;
    over_levels(rt)
}

fn main(rt: HostRuntime) -> io::Result<()> {
    review(&rt)
}
