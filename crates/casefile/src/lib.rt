// Reading the steps of a case file.
#![tactic(auto)]

mod case_check;
mod fault;
mod lists;
mod steps;

pub use case_check::check_case;
pub use fault::CaseFault;
pub use lists::StepLists;
pub use steps::{read_count, read_end, read_step};
