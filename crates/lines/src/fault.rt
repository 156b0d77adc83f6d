// A buffer that is too short for a line.
ghost use Rattle.std.specs.Prelude.{◌≡◌};
ghost use Rattle.lines.specs.Faults.{short_told};

use refusals::{Fault, Told};

// How many bytes the line has.
#[derive(Clone, Copy, PartialEq, Eq, Debug)]
pub struct Short {
    pub needed: usize,
}

impl Fault for Short {
    ghost told = { short_told };

    fn tell(&self) -> Told {
        Told::call(41, self.needed)
    }
}
