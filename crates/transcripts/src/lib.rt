// Exchanges with a review: calls with their arguments, each with a place for its answer.
#![tactic(auto)]

mod exchange;
mod hearing;

pub use exchange::{Answer, Call, Exchange};
pub use hearing::hear;
