// The steps that stand: one record a step, in a table with places for 64.
#![tactic(auto)]

mod comparison;
mod record;
mod table;

pub use comparison::Comparison;
pub use record::Record;
pub use table::Table;
