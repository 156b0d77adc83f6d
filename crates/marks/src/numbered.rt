// Types whose values are numbered from 0 on without a gap, and all their values, rising.
ghost use Rattle.std.specs.Prelude.{◌≡◌, ℕ, ◌<◌, ◌≤◌, ◌^◌, MatchOption};
ghost use Rattle.std.specs.Iterator.{item_count, YieldsFirstBy};
ghost use Rattle.marks.specs.Numbered.{numbers};

use std::marker::PhantomData;

pub trait Numbered: Copy {
    ghost number: { Self → ℕ };

    // The numbers are those below this one.
    ghost end: { ℕ };

    ghost low: { end < 2 ^ 16 };

    ghost within: { (x : Self) → number x < end };

    // The value of this number, or none past the last.
    fn numbered(n: u16) -> Option<Self>
        ensures { MatchOption result (end ≤ n) (λ x. number x ≡ n) };

    // All values, rising.
    fn all() -> Rising<Self>
        ensures { result.next ≡ 0 }
    {
        Rising {
            next: 0,
            values: PhantomData,
        }
    }
}

// The values from a number on, rising.
#[derive(Drop)]
pub struct Rising<T> {
    next: u16,
    values: PhantomData<T>,
}

impl<T: Numbered> Iterator for Rising<T> {
    type Item = T;

    ghost next_gives = { YieldsFirstBy T.Numbered.number (λ s. numbers s.next T.Numbered.end) };

    ghost remaining = { item_count (λ s. numbers s.next T.Numbered.end) };

    fn next(&mut self) -> Option<T> {
        let value = T::numbered(self.next)?;
        self.next += 1;
        Some(value)
    }
}
