// What can be wrong with a case file.
ghost use Rattle.std.specs.Prelude.{◌≡◌};
ghost use Rattle.casefile.specs.Faults.{case_told};

use reading::ReadFault;
use refusals::{Fault, Told};

#[derive(Clone, Copy, PartialEq, Eq, Debug)]
pub struct CaseFault {
    pub read: ReadFault,
}

// Kept: an impl for each fault, since the From that a derive writes has no contract for `?` to rest on.
impl From<ReadFault> for CaseFault {
    ghost from_gives = { λ read r. r.read ≡ read };

    fn from(read: ReadFault) -> CaseFault {
        CaseFault { read }
    }
}

impl Fault for CaseFault {
    ghost told = { case_told };

    fn tell(&self) -> Told {
        self.read.tell()
    }
}
