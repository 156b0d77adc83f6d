// What can be wrong with a name and with a book file.
ghost use Rattle.std.specs.Prelude.{◌≡◌};
ghost use Rattle.bookcheck.specs.Faults.{name_told, book_told};
ghost use Rattle.bookcheck.specs.declared.fault.NameFault.TheVariants.{Read as NameRead};
ghost use Rattle.bookcheck.specs.declared.fault.BookFault.TheVariants.{Read, Row, Name};

use reading::ReadFault;
use refusals::{Fault, Item, Told};
use rows::RowFault;

// Kept: item and offset side by side, since a struct of both would be taken apart at each use.
#[derive(Clone, Copy, PartialEq, Eq, Debug)]
pub enum NameFault {
    // The whole name is not there.
    Read(ReadFault),
    // The length is not 1 to 32, or a byte may not stand in a name; the spot is the name.
    Bad { item: Item, at: usize },
    // The same name stood earlier; the spot is the name.
    Repeated { item: Item, at: usize },
}

// Kept: an impl for each fault, since the From that a derive writes has no contract for `?` to rest on.
impl From<ReadFault> for NameFault {
    ghost from_gives = { λ e r. r ≡ NameRead e };

    fn from(lower: ReadFault) -> NameFault {
        NameFault::Read(lower)
    }
}

impl Fault for NameFault {
    ghost told = { name_told };

    fn tell(&self) -> Told {
        match *self {
            NameFault::Read(fault) => fault.tell(),
            NameFault::Bad { item, at } => item.refusal(7, at),
            NameFault::Repeated { item, at } => item.refusal(8, at),
        }
    }
}

#[derive(Clone, Copy, PartialEq, Eq, Debug)]
pub enum BookFault {
    // A count is not there or too large, or bytes are left over.
    Read(ReadFault),
    // A row is no rule.
    Row(RowFault),
    // A name is refused.
    Name(NameFault),
    // A rule uses an instance without a name; the spot is the mark.
    Nameless { item: Item, at: usize },
}

impl From<ReadFault> for BookFault {
    ghost from_gives = { λ e r. r ≡ Read e };

    fn from(lower: ReadFault) -> BookFault {
        BookFault::Read(lower)
    }
}

impl From<RowFault> for BookFault {
    ghost from_gives = { λ e r. r ≡ Row e };

    fn from(lower: RowFault) -> BookFault {
        BookFault::Row(lower)
    }
}

impl From<NameFault> for BookFault {
    ghost from_gives = { λ e r. r ≡ Name e };

    fn from(lower: NameFault) -> BookFault {
        BookFault::Name(lower)
    }
}

impl Fault for BookFault {
    ghost told = { book_told };

    fn tell(&self) -> Told {
        match *self {
            BookFault::Read(fault) => fault.tell(),
            BookFault::Row(fault) => fault.tell(),
            BookFault::Name(fault) => fault.tell(),
            BookFault::Nameless { item, at } => item.refusal(10, at),
        }
    }
}
