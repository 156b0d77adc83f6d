// Reading the bytes of a file from the front.
#![tactic(auto)]

mod fault;
mod number;
mod reader;

pub use fault::ReadFault;
pub use number::Number;
pub use reader::Reader;
