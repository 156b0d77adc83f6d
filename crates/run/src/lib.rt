// A whole run: from the bytes of a book file and a case file to a review and its outcome.
#![tactic(auto)]

mod fault;
mod hearing;
mod running;

pub use fault::RunFault;
pub use hearing::hear;
pub use running::run_files;
