// The book interface: whatever answers these questions, as its contracts say, is a norm book.
#![tactic(auto)]

mod book;

pub use book::Book;
