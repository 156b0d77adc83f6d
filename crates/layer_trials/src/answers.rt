// What a check tells and what a book answers, by their numbers.
use books::Book;
use refusals::{Fault, Told};

// What is told, where the check refuses.
// Kept: one for each crate of tests, since a crate of tests hands nothing out.
pub(crate) fn told<F: Fault + Drop>(answer: Result<(), F>) -> Option<Told> {
    answer.err().map(|fault| fault.tell())
}

pub(crate) fn head_of<B: Book>(book: &B, n: usize) -> Option<u16> {
    book.head(n).map(|mark| mark.number())
}

pub(crate) fn body_of<B: Book>(book: &B, n: usize, k: usize) -> Option<u16> {
    book.body(n, k).map(|mark| mark.number())
}
