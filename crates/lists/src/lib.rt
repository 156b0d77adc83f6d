// The two lists of a proposal: what is said, and what is proposed. Each is checked from the front, and its marks are
// gathered.
#![tactic(auto)]

mod fault;
mod lists;

pub use fault::{MarksFault, ProposedFault, SaidFault};
pub use lists::check_list;
