// Two books of any types as one.
mod methods;

// The rules of the first book followed by those of the second.
#[derive(Drop)]
pub struct Joint<F, S> {
    first: F,
    second: S,
}

// Where a rule of a joint book stands: the book that has it, and its number there.
#[derive(Clone, Copy)]
pub(crate) enum Place {
    First(usize),
    Second(usize),
}
