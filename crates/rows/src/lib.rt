// The row form of a rule: 32 bytes.
#![tactic(auto)]

mod fault;
mod row;

pub use fault::RowFault;
pub use row::{Row, check_row};
