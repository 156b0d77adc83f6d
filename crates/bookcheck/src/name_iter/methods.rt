// The next name.
ghost use Rattle.std.specs.Prelude.{◌≡◌, ◌≤◌, length};
ghost use Rattle.std.specs.Iterator.{YieldsFirstBy, item_count};
ghost use Rattle.bookcheck.specs.Layout.{name_at, names_in};
ghost use Rattle.bookcheck.specs.Views.{names_left};

use crate::name_iter::NameIter;

impl<'a> NameIter<'a> {
    pub(crate) fn new(rest: &'a [u8], left: u8) -> NameIter<'a>
        requires { name_at rest.now 0 left ≤ length rest.now }
        ensures { names_left result ≡ names_in rest.now 0 left }
    {
        NameIter { rest, left }
    }
}

impl<'a> Iterator for NameIter<'a> {
    type Item = &'a [u8];

    ghost next_gives = { YieldsFirstBy (λ name. name.now) names_left };

    ghost remaining = { item_count names_left };

    fn next(&mut self) -> Option<&'a [u8]> {
        let left = self.left.checked_sub(1)?;
        let (length, rest) = self.rest.split_first()?;
        let (name, rest) = rest.split_at(usize::from(*length));
        *self = NameIter { rest, left };
        Some(name)
    }
}
