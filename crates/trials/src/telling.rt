// What the tests compare.
use refusals::{Fault, Item, Section, Told};

// What is told, where the answer is a refusal.
// Kept: one for each crate of tests, since a crate of tests hands nothing out.
pub(crate) fn told<T: Drop, F: Fault + Drop>(answer: Result<T, F>) -> Option<Told> {
    answer.err().map(|fault| fault.tell())
}

// A refusal of a file, in this item.
pub(crate) fn refused_in(section: Section, item: u16, number: u8, spot: usize) -> Option<Told> {
    Some(Item::of(section, item).refusal(number, spot))
}

// A refusal of a call that reads no file.
pub(crate) fn refused(number: u8, spot: usize) -> Option<Told> {
    Some(Told::call(number, spot))
}
