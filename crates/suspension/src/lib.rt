// The suspension: a book with some of its rules set aside.
#![tactic(auto)]

mod check;
mod fault;
mod suspension;

pub use check::check_suspension;
pub use fault::SuspensionFault;
pub use suspension::Suspension;
