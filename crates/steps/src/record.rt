// One accepted step: the marks that were said, and its marks.
use marks::MarkSet;

mod handing;
mod methods;

#[derive(Clone, Copy, PartialEq, Eq, Debug)]
pub struct Record {
    said: MarkSet,
    marks: MarkSet,
}
