// What is wrong with a list of marks.
ghost use Rattle.std.specs.Prelude.{◌≡◌, ℕ, ◌+◌, Option};
ghost use Rattle.refusals.specs.declared.Told.{Told};
ghost use Rattle.refusals.specs.Checks.{passes};
ghost use Rattle.refusals.specs.Telling.{refusal, answered};
ghost use Rattle.lists.specs.Faults.{said_told, proposed_told};
ghost use Rattle.lists.specs.Lists.{says, bars_unsayable, bars_none};

use marks::{Attribute, Mark};
use refusals::{Fault, Told};

// The faults of one kind of list. Each list holds marks that rise, and a kind may bar some of the marks.
pub trait MarksFault: Fault {
    // The number of the refusal of a mark above 1,023; the next number is that of a mark not above the one before.
    ghost first: { ℕ };

    // What is told of a barred mark at a position.
    ghost bars: { ℕ → ℕ → Option Told };

    // The mark at this position is above 1,023.
    fn high(at: usize) -> Self
        ensures { Self.told result ≡ refusal first at };

    // The mark at this position is not above the one before.
    fn not_rising(at: usize) -> Self
        ensures { Self.told result ≡ refusal (first + 1) at };

    // Refuses the mark at this position where the list may not hold it.
    fn admit(mark: Mark, at: usize) -> Result<(), Self>
        ensures { answered Self.told result ≡ passes tt (bars mark.number at) };
}

// What is wrong with the said list, at a position counted from 0.
#[derive(Clone, Copy, PartialEq, Eq, Debug)]
pub enum SaidFault {
    // The mark is above 1,023.
    High { at: usize },
    // The mark is not above the one before.
    NotRising { at: usize },
    // The mark's attribute is none of triggered, created and ended.
    NotSayable { at: usize },
}

// What is wrong with the proposed list, at a position counted from 0.
// Kept: an enum for each list, since each of their refusals has a number of its own.
#[derive(Clone, Copy, PartialEq, Eq, Debug)]
pub enum ProposedFault {
    // The mark is above 1,023.
    High { at: usize },
    // The mark is not above the one before.
    NotRising { at: usize },
}

impl Fault for SaidFault {
    ghost told = { said_told };

    fn tell(&self) -> Told {
        match *self {
            SaidFault::High { at } => Told::call(22, at),
            SaidFault::NotRising { at } => Told::call(23, at),
            SaidFault::NotSayable { at } => Told::call(24, at),
        }
    }
}

impl Fault for ProposedFault {
    ghost told = { proposed_told };

    fn tell(&self) -> Told {
        match *self {
            ProposedFault::High { at } => Told::call(25, at),
            ProposedFault::NotRising { at } => Told::call(26, at),
        }
    }
}

// Whether a step may say the mark.
fn sayable(mark: Mark) -> bool
    ensures { result ≡ says mark.number }
{
    matches!(
        mark.attribute(),
        Attribute::Triggered | Attribute::Created | Attribute::Ended
    )
}

impl MarksFault for SaidFault {
    ghost first = { 22 };

    ghost bars = { bars_unsayable };

    fn high(at: usize) -> SaidFault {
        SaidFault::High { at }
    }

    fn not_rising(at: usize) -> SaidFault {
        SaidFault::NotRising { at }
    }

    fn admit(mark: Mark, at: usize) -> Result<(), SaidFault> {
        if sayable(mark) {
            Ok(())
        } else {
            Err(SaidFault::NotSayable { at })
        }
    }
}

impl MarksFault for ProposedFault {
    ghost first = { 25 };

    ghost bars = { bars_none };

    fn high(at: usize) -> ProposedFault {
        ProposedFault::High { at }
    }

    fn not_rising(at: usize) -> ProposedFault {
        ProposedFault::NotRising { at }
    }

    // Any mark may be proposed.
    fn admit(_mark: Mark, _at: usize) -> Result<(), ProposedFault> {
        Ok(())
    }
}
