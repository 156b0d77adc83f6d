// The report: a line for each finding, and a last line.
#![tactic(auto)]

mod fault;
mod line;

pub use fault::LineFault;
pub use line::{last_line, report_line};
