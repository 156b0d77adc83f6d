// Judging a proposed step: the lists first, then whether it is a stable step.
ghost use Rattle.std.specs.Prelude.{◌≡◌, ◌<◌, length, IfOk};
ghost use Rattle.std.specs.Result.{result_map_both};
ghost use Rattle.refusals.specs.Telling.{answered};
ghost use Rattle.marks.specs.Sets.{among};
ghost use Rattle.marks.specs.Words.{members};
ghost use Rattle.norms.specs.Steps.{given};
ghost use Rattle.steps.specs.Standing.{standing};
ghost use Rattle.review.specs.Faults.{propose_told};
ghost use Rattle.review.specs.Proposals.{Judged, Compared};

use crate::fault::ProposeFault;
use crate::review::{Accepted, Passed, Review};
use books::Book;
use closure::close;
use lists::{ProposedFault, SaidFault, check_list};
use marks::MarkSet;
use steps::Record;

// Whether the proposed marks are those that are brought about: first whether one was left out, then
// whether one is unfounded.
fn compare(proposed: &MarkSet, brought: &MarkSet) -> Result<(), ProposeFault>
    ensures { Compared (members proposed.now) (members brought.now) (answered propose_told result) }
{
    if let Some(mark) = brought.beyond(proposed) {
        return Err(ProposeFault::LeftOut {
            mark: mark.number(),
        });
    }
    if let Some(mark) = proposed.beyond(brought) {
        return Err(ProposeFault::Unfounded {
            mark: mark.number(),
        });
    }
    Ok(())
}

impl<B: Book> Review<B> {
    // The marks that the next step is given: what is said, and what the last step hands on.
    fn given(&self, said: &MarkSet) -> MarkSet
        ensures { members result ≡ given (standing self.now.steps) (members said.now) }
    {
        let mut given = *said;
        given.unite(&self.steps.inherited());
        given
    }

    // The proposed step with its answer, or the first refusal.
    pub(crate) fn judge(&self, said: &[u16], proposed: &[u16]) -> Result<Passed, ProposeFault>
        ensures judged { Judged (B.Book.rules self.now.book) (standing self.now.steps) said.now proposed.now (result_map_both (λ p. p.accepted) propose_told result) }
        ensures room { IfOk result (λ p. length (standing self.now.steps) < 64) }
        ensures said { IfOk result (λ p. members p.said ≡ among said.now) }
        ensures marks { IfOk result (λ p. members p.marks ≡ among proposed.now) }
    {
        let standing = self.steps.len();
        if standing >= 64 {
            return Err(ProposeFault::Full);
        }
        let said = check_list::<SaidFault>(said)?;
        let marks = check_list::<ProposedFault>(proposed)?;
        let closure = close(&self.book, &marks, &self.given(&said));
        compare(&marks, &closure.marks)?;
        let accepted = Accepted {
            step: standing as u8 + 1,
            depth: closure.depth,
            findings: Record::new(said, marks).findings(),
        };
        Ok(Passed {
            said,
            marks,
            accepted,
        })
    }
}
