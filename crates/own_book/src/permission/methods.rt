// The questions that a book answers, of one rule.
ghost use Rattle.std.specs.Prelude.{◌≡◌};
ghost use Rattle.own_book.specs.Permitted.{permitted, sound_permitted};

use crate::permission::Permission;
use books::Book;
use marks::{Attribute, Instance, Mark};

impl Permission {
    pub fn new(act: Instance, fact: Instance) -> Permission
        ensures act { result.act ≡ act }
        ensures fact { result.fact ≡ fact }
    {
        Permission { act, fact }
    }
}

impl Book for Permission {
    ghost rules = { permitted };

    ghost sound = { sound_permitted };

    fn len(&self) -> usize {
        1
    }

    fn head(&self, n: usize) -> Option<Mark> {
        match n {
            0 => Some(self.act.mark(Attribute::Enabled)),
            _ => None,
        }
    }

    fn counts(&self, n: usize) -> Option<(u8, u8)> {
        match n {
            0 => Some((1, 0)),
            _ => None,
        }
    }

    fn body(&self, n: usize, k: usize) -> Option<Mark> {
        match (n, k) {
            (0, 0) => Some(self.fact.mark(Attribute::Holds)),
            _ => None,
        }
    }
}
