// Hearing calls one after the other.
ghost use Rattle.std.specs.Prelude.{◌≡◌, List, Some};
ghost use Rattle.steps.specs.Standing.{standing};
ghost use Rattle.transcripts.specs.Hearing.{Lists, steps_by, then, stands, Settles, Heard};
ghost use Rattle.transcripts.specs.Views.{ask_of, reply_of, asks, transcript};

use crate::exchange::{Answer, Call, Exchange};
use books::Book;
use review::Review;

// Makes the call, and gives its answer.
fn answer<B: Book>(review: &mut Review<B>, call: &Call, words: &mut [u64]) -> Answer
    ensures settled { Settles (B.Book.rules review.old.book) (standing review.old.steps) words.old (ask_of call.now) (reply_of result) words.new }
    ensures stands { (ls : List Lists) → standing review.old.steps ≡ steps_by ls → standing review.new.steps ≡ steps_by (then ls (ask_of call.now) (Some (reply_of result))) }
    ensures book { review.new.book ≡ review.old.book }
{
    // Kept: a match and no closure, since calls are data that callers keep and that the law speaks of.
    match call {
        Call::Propose { said, proposed } => Answer::Proposed(review.propose(said, proposed)),
        Call::GoBack { n } => Answer::WentBack(review.go_back(*n)),
        Call::Look { step, mark } => Answer::Looked(review.look(*step, *mark)),
        Call::List { k } => Answer::Listed(review.list(*k)),
        Call::Show { step } => Answer::Shown(review.show(*step, words)),
    }
}

// Makes the call of the exchange, and gives its answer.
fn hear_one<B: Book>(review: &mut Review<B>, exchange: &mut Exchange) -> Answer
    ensures settled { Settles (B.Book.rules review.old.book) (standing review.old.steps) exchange.old.words.items (ask_of exchange.old.call) (reply_of result) exchange.new.words.items }
    ensures stands { (ls : List Lists) → standing review.old.steps ≡ steps_by ls → standing review.new.steps ≡ steps_by (then ls (ask_of exchange.old.call) (Some (reply_of result))) }
    ensures call { ask_of exchange.new.call ≡ ask_of exchange.old.call }
    ensures book { review.new.book ≡ review.old.book }
{
    answer(review, &exchange.call, exchange.words.as_mut_slice())
}

// Makes the calls in their order, and writes each answer into its place.
pub fn hear<B: Book>(review: &mut Review<B>, exchanges: &mut [Exchange])
    ensures heard { (ls : List Lists) → standing review.old.steps ≡ steps_by ls → Heard (B.Book.rules review.old.book) ls (transcript exchanges.old exchanges.new) }
    ensures stands { (ls : List Lists) → standing review.old.steps ≡ steps_by ls → standing review.new.steps ≡ steps_by (stands ls (transcript exchanges.old exchanges.new)) }
    ensures calls { asks exchanges.new ≡ asks exchanges.old }
    ensures book { review.new.book ≡ review.old.book }
{
    for exchange in exchanges.iter_mut() {
        let answer = hear_one(review, exchange);
        exchange.answer = Some(answer);
    }
}
