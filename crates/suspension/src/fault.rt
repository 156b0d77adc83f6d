// Why rules cannot be set aside.
ghost use Rattle.suspension.specs.Faults.{suspension_told};

use refusals::{Fault, Told};

#[derive(Clone, Copy, PartialEq, Eq, Debug)]
pub enum SuspensionFault {
    // There are more than 16 numbers; the spot is how many.
    TooMany { count: usize },
    // The number is not above the one before, or names no rule; the spot is its position.
    Number { at: usize },
}

impl Fault for SuspensionFault {
    ghost told = { suspension_told };

    fn tell(&self) -> Told {
        match *self {
            SuspensionFault::TooMany { count } => Told::call(13, count),
            SuspensionFault::Number { at } => Told::call(14, at),
        }
    }
}
