// The lines of a report, written into a lent buffer.
#![tactic(auto)]

mod fault;
mod pieces;
mod report;

pub use fault::Short;
pub use report::{Name, Word, write_finding, write_refused, write_steps};
