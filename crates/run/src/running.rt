// A run over two files.
ghost use Rattle.std.specs.Prelude.{◌≡◌};
ghost use Rattle.std.specs.Result.{result_err};
ghost use Rattle.refusals.specs.Telling.{answered};
ghost use Rattle.bookcheck.specs.Checks.{book_check};
ghost use Rattle.bookfile.specs.Made.{made_rules};
ghost use Rattle.bookfile.specs.Views.{rules_of};
ghost use Rattle.steps.specs.Standing.{standing};
ghost use Rattle.run.specs.Faults.{run_told};
ghost use Rattle.run.specs.Runs.{Runs, RunsAfter};

use crate::fault::RunFault;
use crate::hearing::hear;
use bookcheck::check_book;
use bookfile::FileBook;
use books::Book;
use review::Review;

// Checks the book file, and hears the case file where it passes.
fn run_over<B: Book>(review: &mut Review<B>, book: &[u8], case: &[u8]) -> Result<(), RunFault>
    ensures runs { RunsAfter (book_check book.now) (B.Book.rules review.old.book) (standing review.old.steps) case.now (result_err (answered run_told result)) (standing review.new.steps) }
    ensures book { review.new.book ≡ review.old.book }
{
    check_book(book)?;
    hear(review, case)
}

// The review over the book file after the steps of the case file, and the first refusal, if any.
pub fn run_files<'a>(book: &'a [u8], case: &[u8]) -> (Review<FileBook<'a>>, Result<(), RunFault>)
    ensures runs { Runs book.now case.now (result_err (answered run_told result.1)) (standing result.0.steps) }
    ensures rules { rules_of result.0.book ≡ made_rules book.now }
{
    let mut review = Review::new(FileBook::new(book));
    let outcome = run_over(&mut review, book, case);
    (review, outcome)
}
