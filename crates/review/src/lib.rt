// The review: it passes or refuses each step that is proposed, keeps the steps that passed and goes back to
// earlier ones, lists their findings, and shows their marks.
#![tactic(auto)]

mod fault;
mod review;

pub use fault::{BackFault, ListFault, LookFault, ProposeFault, ShowFault, StepFault};
pub use lists::{ProposedFault, SaidFault};
pub use review::{Accepted, Review, Shown};
