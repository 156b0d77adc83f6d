// Why a call of the review is refused.
ghost use Rattle.std.specs.Prelude.{◌≡◌};
ghost use Rattle.review.specs.Faults.{propose_told, list_told, back_told, step_told, look_told, show_told};
ghost use Rattle.review.specs.declared.fault.ProposeFault.TheVariants.{Said, Proposed};
ghost use Rattle.review.specs.declared.fault.LookFault.TheVariants as look;
ghost use Rattle.review.specs.declared.fault.ShowFault.TheVariants as show;

use lists::{ProposedFault, SaidFault};
use refusals::{Fault, Told};

// Why a proposed step is refused.
#[derive(Clone, Copy, PartialEq, Eq, Debug)]
pub enum ProposeFault {
    // All 64 places are taken.
    Full,
    Said(SaidFault),
    Proposed(ProposedFault),
    // The step has to have this mark, and it was left out.
    LeftOut { mark: u16 },
    // Nothing brings this mark about.
    Unfounded { mark: u16 },
}

// There is no such finding; the spot is how many there are.
// Kept: an enum for each call, also one of a single case, since it says what that call can answer.
#[derive(Clone, Copy, PartialEq, Eq, Debug)]
pub enum ListFault {
    NoSuch { findings: usize },
}

// Fewer steps stand than are to be kept; the spot is how many there are.
#[derive(Clone, Copy, PartialEq, Eq, Debug)]
pub enum BackFault {
    TooMany { steps: usize },
}

// No step of this number stands; the spot is how many there are.
#[derive(Clone, Copy, PartialEq, Eq, Debug)]
pub enum StepFault {
    NotStanding { steps: usize },
}

// Why a look at a mark of a step is refused.
#[derive(Clone, Copy, PartialEq, Eq, Debug)]
pub enum LookFault {
    Step(StepFault),
    // The mark is above 1,023.
    High { mark: u16 },
}

// Why a step is not shown.
#[derive(Clone, Copy, PartialEq, Eq, Debug)]
pub enum ShowFault {
    Step(StepFault),
    // The list has fewer than sixteen words.
    Short,
}

// Kept: an impl for each fault, since the From that a derive writes has no contract for `?` to rest on.
impl From<SaidFault> for ProposeFault {
    ghost from_gives = { λ e r. r ≡ Said e };

    fn from(fault: SaidFault) -> ProposeFault {
        ProposeFault::Said(fault)
    }
}

impl From<ProposedFault> for ProposeFault {
    ghost from_gives = { λ e r. r ≡ Proposed e };

    fn from(fault: ProposedFault) -> ProposeFault {
        ProposeFault::Proposed(fault)
    }
}

impl From<StepFault> for LookFault {
    ghost from_gives = { λ e r. r ≡ look.Step e };

    fn from(fault: StepFault) -> LookFault {
        LookFault::Step(fault)
    }
}

impl From<StepFault> for ShowFault {
    ghost from_gives = { λ e r. r ≡ show.Step e };

    fn from(fault: StepFault) -> ShowFault {
        ShowFault::Step(fault)
    }
}

impl Fault for ProposeFault {
    ghost told = { propose_told };

    fn tell(&self) -> Told {
        match *self {
            ProposeFault::Full => Told::call(21, 64),
            ProposeFault::Said(fault) => fault.tell(),
            ProposeFault::Proposed(fault) => fault.tell(),
            ProposeFault::LeftOut { mark } => Told::call(27, usize::from(mark)),
            ProposeFault::Unfounded { mark } => Told::call(28, usize::from(mark)),
        }
    }
}

impl Fault for ListFault {
    ghost told = { list_told };

    fn tell(&self) -> Told {
        match *self {
            ListFault::NoSuch { findings } => Told::call(34, findings),
        }
    }
}

impl Fault for BackFault {
    ghost told = { back_told };

    fn tell(&self) -> Told {
        match *self {
            BackFault::TooMany { steps } => Told::call(31, steps),
        }
    }
}

impl Fault for StepFault {
    ghost told = { step_told };

    fn tell(&self) -> Told {
        match *self {
            StepFault::NotStanding { steps } => Told::call(32, steps),
        }
    }
}

impl Fault for LookFault {
    ghost told = { look_told };

    fn tell(&self) -> Told {
        match *self {
            LookFault::Step(fault) => fault.tell(),
            LookFault::High { mark } => Told::call(33, usize::from(mark)),
        }
    }
}

impl Fault for ShowFault {
    ghost told = { show_told };

    fn tell(&self) -> Told {
        match *self {
            ShowFault::Step(fault) => fault.tell(),
            ShowFault::Short => Told::call(35, 16),
        }
    }
}
