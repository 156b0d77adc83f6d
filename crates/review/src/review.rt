// A review over a book, with the steps that stand.
use marks::MarkSet;
use steps::Table;

mod judging;
mod methods;
mod recalls;

// What is answered of a step that passed: its number, its depth, and how many findings it has.
#[derive(Clone, Copy, PartialEq, Eq, Debug)]
pub struct Accepted {
    pub step: u8,
    pub depth: u16,
    pub findings: u16,
}

// What is shown of a step beside its words: how many marks it has, and the lowest of them.
#[derive(Clone, Copy, PartialEq, Eq, Debug)]
pub struct Shown {
    pub marks: u16,
    pub lowest: Option<u16>,
}

// A review over any book. Its calls tell of the book's rules alone, and never change the book.
#[derive(Drop)]
pub struct Review<B> {
    // Kept: each call on `&mut self` says that the book stays, for no type can say that a field never changes.
    book: B,
    steps: Table,
}

// A step that passed, before it stands.
#[derive(Clone, Copy)]
pub(crate) struct Passed {
    said: MarkSet,
    marks: MarkSet,
    accepted: Accepted,
}
