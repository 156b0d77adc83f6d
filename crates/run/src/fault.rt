// The first refusal of a run.
ghost use Rattle.std.specs.Prelude.{◌≡◌};
ghost use Rattle.run.specs.Faults.{run_told};
ghost use Rattle.run.specs.declared.fault.RunFault.TheVariants.{Book, Case, Propose};

use bookcheck::BookFault;
use casefile::CaseFault;
use refusals::{Fault, Told};
use review::ProposeFault;

#[derive(Clone, Copy, PartialEq, Eq, Debug)]
pub enum RunFault {
    Book(BookFault),
    Case(CaseFault),
    Propose(ProposeFault),
}

// Kept: an impl for each fault, since the From that a derive writes has no contract for `?` to rest on.
impl From<BookFault> for RunFault {
    ghost from_gives = { λ e r. r ≡ Book e };

    fn from(fault: BookFault) -> RunFault {
        RunFault::Book(fault)
    }
}

impl From<CaseFault> for RunFault {
    ghost from_gives = { λ e r. r ≡ Case e };

    fn from(fault: CaseFault) -> RunFault {
        RunFault::Case(fault)
    }
}

impl From<ProposeFault> for RunFault {
    ghost from_gives = { λ e r. r ≡ Propose e };

    fn from(fault: ProposeFault) -> RunFault {
        RunFault::Propose(fault)
    }
}

impl Fault for RunFault {
    ghost told = { run_told };

    fn tell(&self) -> Told {
        match *self {
            RunFault::Book(fault) => fault.tell(),
            RunFault::Case(fault) => fault.tell(),
            RunFault::Propose(fault) => fault.tell(),
        }
    }
}
