// What can be wrong with a series.
ghost use Rattle.std.specs.Prelude.{◌≡◌};
ghost use Rattle.series.specs.Faults.{series_told};
ghost use Rattle.series.specs.declared.fault.SeriesFault.TheVariants.{Row};

use refusals::{Fault, Item, Section, Told};
use rows::RowFault;

#[derive(Clone, Copy, PartialEq, Eq, Debug)]
pub enum SeriesFault {
    // The row is not all there, or is no rule.
    Row(RowFault),
    // The row has more than 32 bytes; the spot is the first byte after them.
    LeftOver,
    // The width, the count or the movement is out of bounds.
    Movement,
}

// Kept: an impl for each fault, since the From that a derive writes has no contract for `?` to rest on.
impl From<RowFault> for SeriesFault {
    ghost from_gives = { λ e r. r ≡ Row e };

    fn from(lower: RowFault) -> SeriesFault {
        SeriesFault::Row(lower)
    }
}

impl Fault for SeriesFault {
    ghost told = { series_told };

    fn tell(&self) -> Told {
        match *self {
            SeriesFault::Row(fault) => fault.tell(),
            SeriesFault::LeftOver => Item::of(Section::Series, 0).refusal(9, 32),
            SeriesFault::Movement => Item::of(Section::Series, 0).refusal(11, 0),
        }
    }
}
