// Why a line of the report is not written.
ghost use Rattle.std.specs.Prelude.{◌≡◌};
ghost use Rattle.report.specs.Faults.{line_told};
ghost use Rattle.report.specs.declared.fault.LineFault.TheVariants.{List as InList, Short as InShort};

use lines::Short;
use refusals::{Fault, Told};
use review::ListFault;

#[derive(Clone, Copy, PartialEq, Eq, Debug)]
pub enum LineFault {
    // There is no such finding.
    List(ListFault),
    // The buffer is too short for the line.
    Short(Short),
}

// Kept: an impl for each fault, since the From that a derive writes has no contract for `?` to rest on.
impl From<ListFault> for LineFault {
    ghost from_gives = { λ e r. r ≡ InList e };

    fn from(fault: ListFault) -> LineFault {
        LineFault::List(fault)
    }
}

impl From<Short> for LineFault {
    ghost from_gives = { λ e r. r ≡ InShort e };

    fn from(fault: Short) -> LineFault {
        LineFault::Short(fault)
    }
}

impl Fault for LineFault {
    ghost told = { line_told };

    fn tell(&self) -> Told {
        match *self {
            LineFault::List(fault) => fault.tell(),
            LineFault::Short(fault) => fault.tell(),
        }
    }
}
