// A book file: its check, and what stands in it.
#![tactic(auto)]

mod book;
mod fault;
mod name_iter;
mod name_table;
mod rule_table;

pub use book::{BookParts, check_book, read_book};
pub use fault::{BookFault, NameFault};
pub use name_iter::NameIter;
pub use name_table::NameTable;
pub use rule_table::RuleTable;
