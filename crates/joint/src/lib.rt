// The joint book: the rules of one book followed by those of another.
#![tactic(auto)]

mod check;
mod fault;
mod joint;

pub use check::check_joint;
pub use fault::JointFault;
pub use joint::Joint;
