// The name of an instance.
ghost use Rattle.std.specs.Prelude.{◌≡◌, ℕ, ◌≤◌, List, length, IfSome};
ghost use Rattle.std.specs.List.{slice_get};
ghost use Rattle.std.specs.Option.{option_map};
ghost use Rattle.norms.specs.Programs.{Rule};
ghost use Rattle.bookfile.specs.Made.{made_names};
ghost use Rattle.bookcheck.specs.Written.{FileOf};
ghost use Rattle.bookfile.specs.Views.{name_list};

use crate::name_list::Names;
use bookcheck::{NameTable, read_book};
use marks::Instance;

impl<'a> Names<'a> {
    // The names of the file, or none where the check refuses it.
    pub fn new(bytes: &'a [u8]) -> Names<'a>
        ensures names { name_list result ≡ made_names bytes.now }
        ensures meant { (rules : List (Rule ℕ)) (names : List (List ℕ)) → FileOf rules names bytes.now → name_list result ≡ names }
    {
        let names = read_book(bytes).map_or(NameTable::empty(bytes), |book| book.names);
        Names { names }
    }

    // The name of the instance; none where it has no name.
    pub fn name(&self, instance: Instance) -> Option<&'a [u8]>
        ensures value { option_map (λ x. x.now) result ≡ slice_get (name_list self.now) instance.number }
        ensures short { IfSome result (λ x. length x.now ≤ 32) }
    {
        let n = usize::from(instance.number());
        // Where there is no such name, none is walked past.
        if n < self.names.len() {
            self.names.iter().nth(n)
        } else {
            None
        }
    }
}
