// Marks, and sets of marks.
#![tactic(auto)]

mod mark;
mod mark_set;
mod numbered;

pub use mark::{Attribute, Instance, Mark};
pub use mark_set::MarkSet;
pub use numbered::{Numbered, Rising};
