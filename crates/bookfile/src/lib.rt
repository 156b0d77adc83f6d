// The book file: its check, the book that it holds, and the names of the instances.
#![tactic(auto)]

mod file_book;
mod name_list;

pub use bookcheck::{BookFault, NameFault, check_book};
pub use file_book::FileBook;
pub use name_list::Names;
