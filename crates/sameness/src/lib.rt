// Whether two books mean equal rules, from what they answer alone.
#![tactic(auto)]

ghost use Rattle.std.specs.Prelude.{Decides};
ghost use Rattle.norms.specs.Equal.{Equal, Equivalence, Joined, Alike};
ghost use Rattle.sameness.specs.Likes.{Covered};

mod part;
mod rule;

use crate::rule::BookRule;
use books::Book;

// Whether the rules of either book have their like in the other.
#[tactic(auto, using(norms::proofs::Equal::equivalence, norms::proofs::Equal::joined, norms::proofs::Equal::alike))]
pub fn same_rules<F: Book, S: Book>(first: &F, second: &S) -> bool
    ensures decides { Decides result (Equal (F.Book.rules first.now) (S.Book.rules second.now)) }
    ensures equivalence { Equivalence }
    ensures joined { Joined }
    ensures same_steps { Equal (F.Book.rules first.now) (S.Book.rules second.now) → Alike (F.Book.rules first.now) (S.Book.rules second.now) }
{
    covered(first, second) && covered(second, first)
}

// Whether each rule of the first book has its like in the second.
fn covered<F: Book, S: Book>(first: &F, second: &S) -> bool
    ensures { Decides result (Covered (F.Book.rules first.now) (S.Book.rules second.now)) }
{
    (0..first.len())
        .filter_map(|n| BookRule::new(first, n))
        .all(|rule| rule.has_like(second))
}
