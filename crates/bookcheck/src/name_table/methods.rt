// The names of a table.
ghost use Rattle.std.specs.Prelude.{◌≡◌};
ghost use Rattle.bookcheck.specs.Views.{table_names, names_left};

use crate::name_iter::NameIter;
use crate::name_table::NameTable;

impl<'a> NameTable<'a> {
    // No names.
    pub fn empty(bytes: &'a [u8]) -> NameTable<'a>
        ensures { result.count ≡ 0 }
    {
        NameTable {
            bytes,
            from: 0,
            count: 0,
        }
    }

    pub fn len(&self) -> usize
        ensures { result ≡ self.now.count }
    {
        usize::from(self.count)
    }

    pub fn iter(&self) -> NameIter<'a>
        ensures { names_left result ≡ table_names self.now }
    {
        NameIter::new(&self.bytes[self.from..], self.count)
    }
}
