// The questions that a book answers, from the rows of a file.
ghost use Rattle.std.specs.Prelude.{◌≡◌, ℕ, List};
ghost use Rattle.refusals.specs.declared.Section.TheVariants.{Rules};
ghost use Rattle.norms.specs.Programs.{Rule};
ghost use Rattle.rows.proofs.Sound.{sound_table};
ghost use Rattle.bookcheck.specs.Layout.{rows_from};
ghost use Rattle.bookfile.specs.Made.{made_rules};
ghost use Rattle.bookcheck.specs.Written.{FileOf};
ghost use Rattle.bookfile.specs.Views.{rules_of};

use crate::file_book::FileBook;
use bookcheck::{RuleTable, read_book};
use books::Book;
use marks::Mark;

impl<'a> FileBook<'a> {
    // The book of the file, or one without rules where the check refuses it.
    pub fn new(bytes: &'a [u8]) -> FileBook<'a>
        ensures rules { rules_of result ≡ made_rules bytes.now }
        ensures meant { (rules : List (Rule ℕ)) (names : List (List ℕ)) → FileOf rules names bytes.now → rules_of result ≡ rules }
    {
        let rules = read_book(bytes).map_or(RuleTable::empty(bytes), |book| book.rules);
        FileBook { rules }
    }
}

impl Book for FileBook<'_> {
    ghost rules = { rules_of };

    ghost sound = { λ b. sound_table Rules b.rules.bytes.now rows_from b.rules.count b.rules.checked b.rules.few };

    fn len(&self) -> usize {
        self.rules.len()
    }

    fn head(&self, n: usize) -> Option<Mark> {
        Mark::new(self.rules.row(n)?.head())
    }

    fn counts(&self, n: usize) -> Option<(u8, u8)> {
        let row = self.rules.row(n)?;
        Some((row.required(), row.barred()))
    }

    fn body(&self, n: usize, k: usize) -> Option<Mark> {
        let row = self.rules.row(n)?;
        if k < row.body_count() {
            Mark::new(row.mark(k))
        } else {
            None
        }
    }
}
