// A norm book means a list of rules. The review asks it for them, and knows nothing else of it.
ghost use Rattle.std.specs.Prelude.{◌≡◌, ℕ, List, length};
ghost use Rattle.std.specs.Option.{option_map};
ghost use Rattle.norms.specs.Programs.{Rule};
ghost use Rattle.norms.specs.Rules.{SoundBook};
ghost use Rattle.books.specs.Asked.{head_of, body_of, counts_of, numbered};

use marks::Mark;

pub trait Book {
    // The rules that the book means, in their order.
    ghost rules: { Self → List (Rule ℕ) };

    // At most 1,024 rules, each within the bounds of a rule.
    ghost sound: { (b : Self) → SoundBook (rules b) };

    // How many rules there are.
    fn len(&self) -> usize
        ensures { result ≡ length (rules self.now) };

    // The head of rule n; none past the end.
    fn head(&self, n: usize) -> Option<Mark>
        ensures { numbered result ≡ head_of (rules self.now) n };

    // How many marks rule n requires and how many it bars; none past the end.
    fn counts(&self, n: usize) -> Option<(u8, u8)>
        ensures { result ≡ counts_of (rules self.now) n };

    // The k-th body mark of rule n, required ones first; none past the end.
    fn body(&self, n: usize, k: usize) -> Option<Mark>
        ensures { numbered result ≡ body_of (rules self.now) n k };
}

// A reference to a book is a book, so that whatever stands over a book can also borrow it.
impl<B: Book> Book for &B {
    ghost rules = { λ b. B.Book.rules b.now };

    ghost sound = { λ b. B.Book.sound b.now };

    fn len(&self) -> usize {
        (**self).len()
    }

    fn head(&self, n: usize) -> Option<Mark> {
        (**self).head(n)
    }

    fn counts(&self, n: usize) -> Option<(u8, u8)> {
        (**self).counts(n)
    }

    fn body(&self, n: usize, k: usize) -> Option<Mark> {
        (**self).body(n, k)
    }
}
