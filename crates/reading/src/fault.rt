// What can be wrong with any file that is read.
ghost use Rattle.std.specs.Prelude.{◌≡◌};
ghost use Rattle.reading.specs.Faults.{read_told};

use refusals::{Fault, Item, Section, Told};

// Kept: item and offset side by side, since a struct of both would be taken apart at each use.
#[derive(Clone, Copy, PartialEq, Eq, Debug)]
pub enum ReadFault {
    // The bytes end too early; the spot is the file's length.
    Ended { item: Item, length: usize },
    // A count is above its limit; the spot is the count's offset.
    TooMany { item: Item, at: usize },
    // Bytes are left over; the spot is the first of them.
    LeftOver { at: usize },
}

impl Fault for ReadFault {
    ghost told = { read_told };

    fn tell(&self) -> Told {
        match *self {
            ReadFault::Ended { item, length } => item.refusal(1, length),
            ReadFault::TooMany { item, at } => item.refusal(2, at),
            ReadFault::LeftOver { at } => Item::of(Section::End, 0).refusal(9, at),
        }
    }
}
