// The smallest closed set of a proposal, by rounds over a book.
#![tactic(auto)]

ghost use Rattle.std.specs.Prelude.{◌≤◌};
ghost use Rattle.marks.specs.Words.{members};
ghost use Rattle.norms.specs.Laws.{Lawful};
ghost use Rattle.closure.specs.Closes.{Closes};

mod round;

use crate::round::BookRound;
use books::Book;
use marks::MarkSet;

// A smallest closed set, and in how many rounds it was reached: those that added a mark.
#[derive(Clone, Copy)]
pub struct Closure {
    pub marks: MarkSet,
    pub depth: u16,
}

// The smallest set that contains the given marks and is closed under the rules that the proposed marks do not
// bar, by rounds from the given marks until a round adds nothing.
pub fn close<B: Book>(book: &B, proposed: &MarkSet, given: &MarkSet) -> Closure
    ensures closes { Closes (B.Book.rules book.now) (members proposed.now) (members given.now) (members result.marks) result.depth }
    ensures few { result.depth ≤ 1024 }
    ensures lawful { Lawful (B.Book.rules book.now) }
{
    let mut marks = *given;
    let mut depth = 0;
    // Kept: the number of rounds is part of the answer, so the loop counts them.
    loop {
        let round = BookRound {
            book,
            proposed,
            from: &marks,
        };
        let next = round.run();
        // Kept: no `==`, since the mark that was added is what shows that the rounds end.
        if next.beyond(&marks).is_none() {
            return Closure { marks, depth };
        }
        marks = next;
        depth += 1;
    }
}
