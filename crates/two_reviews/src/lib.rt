// Two reviews, each asked on its own, and how they stand to each other in the end. The contract of
// `compare_reviews` is the law over two reviews.
#![tactic(auto)]

ghost use Rattle.std.specs.Prelude.{◌≡◌};
ghost use Rattle.transcripts.specs.Views.{asks, transcript};
ghost use Rattle.two_reviews.specs.Law.{Law};

use books::Book;
use review::Review;
use steps::Comparison;
use transcripts::{Exchange, hear};

// Makes a review over each book, has each hear its calls and writes the answers into their places, and tells
// how the two stand to each other.
pub fn compare_reviews<A: Book, B: Book>(
    first: &A,
    second: &B,
    of_first: &mut [Exchange],
    of_second: &mut [Exchange],
) -> Comparison
    ensures law { Law (A.Book.rules first.now) (B.Book.rules second.now) (transcript of_first.old of_first.new) (transcript of_second.old of_second.new) result }
    ensures calls { asks of_first.new ≡ asks of_first.old }
    ensures others { asks of_second.new ≡ asks of_second.old }
{
    let mut one = Review::new(first);
    hear(&mut one, of_first);
    let mut other = Review::new(second);
    hear(&mut other, of_second);
    one.compare(&other)
}
