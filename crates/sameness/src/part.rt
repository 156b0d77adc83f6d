// Some body marks of a rule.
ghost use Rattle.std.specs.Prelude.{◌≡◌, Decides, take, drop, ◌-◌};
ghost use Rattle.marks.specs.Sets.{among, ◌⊆◌};
ghost use Rattle.norms.specs.Rules.{body};

use crate::rule::BookRule;
use books::Book;
use marks::Mark;
use std::marker::Model;

// The body marks at the places from `start` up to `end`.
#[derive(Drop)]
pub(crate) struct Part<'r, 'a, B: Book> {
    rule: &'r BookRule<'a, B>,
    start: usize,
    end: usize,
}

// Clauses see these marks.
impl<'r, 'a, B: Book> Model for Part<'r, 'a, B> {
    ghost use Rattle.std.specs.Prelude.{ℕ, List, take, drop, ◌-◌};
    ghost use Rattle.norms.specs.Rules.{body};

    ghost Value = { List ℕ };

    ghost view = { λ p. take (p.end - p.start) (drop p.start (body p.rule.now)) };
}

impl<'r, 'a, B: Book> Part<'r, 'a, B> {
    pub(crate) fn new(rule: &'r BookRule<'a, B>, start: usize, end: usize) -> Part<'r, 'a, B>
        ensures { result ≡ take (end - start) (drop start (body rule.now)) }
    {
        Part { rule, start, end }
    }

    // Whether the two parts have the same marks.
    pub(crate) fn same_marks<S: Book>(&self, other: &Part<'_, '_, S>) -> bool
        ensures { Decides result (among self.now ≡ among other.now) }
    {
        self.within(other) && other.within(self)
    }

    // Whether each mark of this part is one of the other.
    fn within<S: Book>(&self, other: &Part<'_, '_, S>) -> bool
        ensures { Decides result (among self.now ⊆ among other.now) }
    {
        // Kept: a match, since the closure of `is_none_or` inside this one tells its caller nothing.
        (self.start..self.end).all(|place| match self.rule.body(place) {
            Some(mark) => other.has(mark),
            None => true,
        })
    }

    // Whether the mark is one of this part.
    fn has(&self, mark: Mark) -> bool
        ensures { result ≡ among self.now mark.number }
    {
        (self.start..self.end).any(|place| self.rule.body(place) == Some(mark))
    }
}
