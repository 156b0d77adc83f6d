// The questions that a book answers, from a book and the numbers of the rules that are set aside.
ghost use Rattle.std.specs.Prelude.{◌≡◌, length};
ghost use Rattle.std.specs.List.{slice_get};
ghost use Rattle.refusals.specs.Checks.{where_passes};
ghost use Rattle.suspension.specs.Checks.{suspension_check};
ghost use Rattle.suspension.specs.Rest.{rest, NothingAside, at_number};
ghost use Rattle.suspension.specs.Sound.{sound_rest};

use crate::check::check_suspension;
use crate::suspension::Suspension;
use books::Book;
use marks::Mark;

impl<'a, B: Book> Suspension<'a, B> {
    // The book without the rules of these numbers. Where the check refuses them, nothing is set aside.
    #[tactic(auto, using(crate::proofs::Skipping::nothing_from))]
    pub fn new(book: B, numbers: &'a [u16]) -> Suspension<'a, B>
        ensures book { result.book ≡ book }
        ensures numbers { result.numbers.now ≡ where_passes (suspension_check (length (B.Book.rules book)) numbers.now) numbers.now }
        ensures law { NothingAside (B.Book.rules book) }
    {
        let numbers = check_suspension(&book, numbers).map_or(&numbers[..0], |()| numbers);
        Suspension { book, numbers }
    }

    // The number of rule n in the book below: higher by how many rules are set aside before it.
    fn number(&self, n: usize) -> Option<usize>
        ensures { at_number (B.Book.rules self.now.book) result ≡ slice_get (rest self.now.numbers.now (B.Book.rules self.now.book)) n }
    {
        if n >= self.book.len() {
            return None;
        }
        // Kept: a fold is no plainer, and its closure would need a clause of its own for the bound of the sum.
        let mut at = n;
        for aside in self.numbers {
            if usize::from(*aside) <= at {
                at += 1;
            }
        }
        Some(at)
    }
}

impl<B: Book> Book for Suspension<'_, B> {
    ghost rules = { λ s. rest s.numbers.now (B.Book.rules s.book) };

    ghost sound = { λ s. sound_rest s.numbers.now (B.Book.rules s.book) (B.Book.sound s.book) };

    // Kept: the book below is asked once, so that what layers cost is a sum; a count over a filter is no quicker way.
    fn len(&self) -> usize {
        let all = self.book.len();
        let mut left = all;
        for aside in self.numbers {
            if usize::from(*aside) < all {
                left -= 1;
            }
        }
        left
    }

    fn head(&self, n: usize) -> Option<Mark> {
        self.book.head(self.number(n)?)
    }

    fn counts(&self, n: usize) -> Option<(u8, u8)> {
        self.book.counts(self.number(n)?)
    }

    fn body(&self, n: usize, k: usize) -> Option<Mark> {
        self.book.body(self.number(n)?, k)
    }
}
