// The series book: one row, and rules that come from it by moving some of its marks step by step.
#![tactic(auto)]

mod check;
mod fault;
mod moved;
mod movement;
mod series;

pub use check::check_series;
pub use fault::SeriesFault;
pub use movement::Movement;
pub use series::Series;
