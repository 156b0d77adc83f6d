// The calls of a review: making it, proposing a step, and listing the findings.
ghost use Rattle.std.specs.Prelude.{◌≡◌, ◌<◌, ◌≤◌, List, [], length, IfOk, OnErr};
ghost use Rattle.refusals.specs.Telling.{answered};
ghost use Rattle.norms.specs.Laws.{Listed};
ghost use Rattle.steps.specs.Standing.{standing};
ghost use Rattle.review.specs.Faults.{propose_told, list_told};
ghost use Rattle.review.specs.Listings.{listing};
ghost use Rattle.review.specs.Proposals.{Judged, stand_after};
ghost use Rattle.review.specs.Settled.{Settled};

use crate::fault::{ListFault, ProposeFault};
use crate::review::{Accepted, Review};
use books::Book;
use steps::Table;

impl<B: Book> Review<B> {
    // A review over the book, without steps.
    pub fn new(book: B) -> Review<B>
        ensures book { result.book ≡ book }
        ensures steps { standing result.steps ≡ [] }
    {
        Review {
            book,
            steps: Table::new(),
        }
    }

    // How many steps stand.
    pub fn steps(&self) -> usize
        ensures value { result ≡ length (standing self.now.steps) }
        ensures room { result ≤ 64 }
    {
        self.steps.len()
    }

    // Accepts the proposed marks as the next step exactly where they are a stable step; otherwise it
    // refuses, and nothing changes.
    #[tactic(auto, using(crate::proofs::Settling::settled))]
    pub fn propose(&mut self, said: &[u16], proposed: &[u16]) -> Result<Accepted, ProposeFault>
        ensures judged { Judged (B.Book.rules self.old.book) (standing self.old.steps) said.now proposed.now (answered propose_told result) }
        ensures stands { standing self.new.steps ≡ stand_after (standing self.old.steps) said.now proposed.now (answered propose_told result) }
        ensures law { Settled (B.Book.rules self.old.book) (standing self.old.steps) said.now proposed.now }
        ensures book { self.new.book ≡ self.old.book }
        ensures refused { OnErr result (self.new ≡ self.old) }
    {
        let passed = self.judge(said, proposed)?;
        self.steps
            .add(passed.said, passed.marks)
            .ok_or(ProposeFault::Full)?;
        Ok(passed.accepted)
    }

    // Step and mark of finding k, counted from 0 by step and then by mark.
    // Kept: the bound of the mark stands in a clause here and in `steps`, since what is answered is a pair of numbers.
    #[tactic(auto, using(norms::proofs::Listing::listed))]
    pub fn list(&self, k: usize) -> Result<(u8, u16), ListFault>
        ensures answer { answered list_told result ≡ listing (standing self.now.steps) k }
        ensures low { IfOk result (λ d. d.1 < 1024) }
        ensures law { Listed (standing self.now.steps) }
    {
        self.steps
            .finding(k)
            .map_err(|findings| ListFault::NoSuch { findings })
    }
}
