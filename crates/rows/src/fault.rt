// What can be wrong with a row.
ghost use Rattle.std.specs.Prelude.{◌≡◌};
ghost use Rattle.rows.specs.Faults.{row_told};
ghost use Rattle.rows.specs.declared.fault.RowFault.TheVariants.{Read};

use reading::ReadFault;
use refusals::{Fault, Item, Told};

// Kept: item and offset side by side, since a struct of both would be taken apart at each use.
#[derive(Clone, Copy, PartialEq, Eq, Debug)]
pub enum RowFault {
    // The whole row is not there.
    Read(ReadFault),
    // The head is above 1,023; the spot is the row.
    HeadHigh { item: Item, at: usize },
    // The head's attribute is carried or breached; the spot is the row.
    HeadKind { item: Item, at: usize },
    // There are more than 14 body marks; the spot is the counts.
    TooMany { item: Item, at: usize },
    // A body mark is above 1,023; the spot is the mark.
    MarkHigh { item: Item, at: usize },
    // An unused byte is not zero; the spot is the byte.
    Unused { item: Item, at: usize },
}

// Kept: an impl for each fault, since the From that a derive writes has no contract for `?` to rest on.
impl From<ReadFault> for RowFault {
    ghost from_gives = { λ e r. r ≡ Read e };

    fn from(lower: ReadFault) -> RowFault {
        RowFault::Read(lower)
    }
}

impl Fault for RowFault {
    ghost told = { row_told };

    fn tell(&self) -> Told {
        match *self {
            RowFault::Read(fault) => fault.tell(),
            RowFault::TooMany { item, at } => item.refusal(3, at),
            RowFault::HeadHigh { item, at } => item.refusal(4, at),
            RowFault::MarkHigh { item, at } => item.refusal(4, at),
            RowFault::HeadKind { item, at } => item.refusal(5, at),
            RowFault::Unused { item, at } => item.refusal(6, at),
        }
    }
}
