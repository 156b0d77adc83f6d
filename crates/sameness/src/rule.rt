// A rule of a book, as one value.
ghost use Rattle.std.specs.Prelude.{◌≡◌, length, Decides};
ghost use Rattle.std.specs.List.{slice_get};
ghost use Rattle.norms.specs.Rules.{body};
ghost use Rattle.norms.specs.Equal.{Like, Covers};
ghost use Rattle.books.specs.Asked.{numbered};

use crate::part::Part;
use books::Book;
use marks::Mark;
use std::marker::Model;

// Where the rule stands in its book, and its head. Its counts are asked only where they are needed, since most rules
// have different heads.
#[derive(Drop)]
pub(crate) struct BookRule<'a, B: Book> {
    book: &'a B,
    number: usize,
    head: Mark,
}

// Clauses see the rule itself.
impl<'a, B: Book> Model for BookRule<'a, B> {
    ghost use Rattle.std.specs.Prelude.{ℕ};
    ghost use Rattle.norms.specs.Programs.{Rule};
    ghost use Rattle.sameness.specs.Told.{rule_at, HeadedAt};

    ghost Value = { Rule ℕ };

    ghost view = { λ r. rule_at (B.Book.rules r.book.now) r.number };

    ghost invariant = { λ r. HeadedAt (B.Book.rules r.book.now) r.number r.head.number };
}

impl<'a, B: Book> BookRule<'a, B> {
    // Rule n of the book; none past the end.
    pub(crate) fn new(book: &'a B, n: usize) -> Option<BookRule<'a, B>>
        ensures { result ≡ slice_get (B.Book.rules book.now) n }
    {
        let head = book.head(n)?;
        Some(BookRule {
            book,
            number: n,
            head,
        })
    }

    // The body mark at this place, required ones first; none past the end.
    pub(crate) fn body(&self, place: usize) -> Option<Mark>
        ensures { numbered result ≡ slice_get (body self.now) place }
    {
        self.book.body(self.number, place)
    }

    // Whether some rule of the book is like this one.
    pub(crate) fn has_like<S: Book>(&self, book: &S) -> bool
        ensures { Decides result (Covers (S.Book.rules book.now) self.now) }
    {
        (0..book.len())
            .filter_map(|n| BookRule::new(book, n))
            .any(|other| self.is_like(&other))
    }

    // Whether the two rules are like each other.
    fn is_like<S: Book>(&self, other: &BookRule<'_, S>) -> bool
        ensures { Decides result (Like self.now other.now) }
    {
        self.head == other.head
            && self.required().same_marks(&other.required())
            && self.barred().same_marks(&other.barred())
    }

    // How many marks the rule requires, and how many it bars.
    fn counts(&self) -> (u8, u8)
        ensures { (result.0 ≡ length self.now.required) × (result.1 ≡ length self.now.barred) }
    {
        self.book.counts(self.number).unwrap_or((0, 0))
    }

    // The marks that the rule requires.
    fn required(&self) -> Part<'_, 'a, B>
        ensures { result ≡ self.now.required }
    {
        let (required, _) = self.counts();
        Part::new(self, 0, usize::from(required))
    }

    // The marks that the rule bars.
    fn barred(&self) -> Part<'_, 'a, B>
        ensures { result ≡ self.now.barred }
    {
        let (required, barred) = self.counts();
        let start = usize::from(required);
        Part::new(self, start, start + usize::from(barred))
    }
}
