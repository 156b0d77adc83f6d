// Going back to an earlier step, and looking at the steps that stand.
ghost use Rattle.std.specs.Prelude.{◌≡◌, length, OnErr};
ghost use Rattle.std.specs.Result.{result_map_both};
ghost use Rattle.refusals.specs.Checks.{passes};
ghost use Rattle.refusals.specs.Telling.{answered};
ghost use Rattle.marks.specs.Words.{members};
ghost use Rattle.norms.specs.Traces.{of_step};
ghost use Rattle.norms.specs.Scenarios.{said_of, marks_of, trace};
ghost use Rattle.steps.specs.Compared.{Compares};
ghost use Rattle.steps.specs.Standing.{standing};
ghost use Rattle.review.specs.Faults.{back_told, step_told, look_told, show_told};
ghost use Rattle.review.specs.Recalls.{going_back, kept_after, step_check, looking, shown_of, showing, written};

use crate::fault::{BackFault, LookFault, ShowFault, StepFault};
use crate::review::{Review, Shown};
use books::Book;
use marks::{Mark, MarkSet};
use members::{count, lowest};
use steps::Comparison;

// How many marks the set has, and the lowest of them.
fn shown(marks: &MarkSet) -> Shown
    ensures { result ≡ shown_of (members marks.now) }
{
    Shown {
        marks: count(marks),
        lowest: lowest(marks).map(|mark| mark.number()),
    }
}

impl<B: Book> Review<B> {
    // Keeps the first n steps and answers n; n may be all of them.
    pub fn go_back(&mut self, n: usize) -> Result<usize, BackFault>
        ensures answer { answered back_told result ≡ going_back (standing self.old.steps) n }
        ensures stands { standing self.new.steps ≡ kept_after (standing self.old.steps) (answered back_told result) }
        ensures book { self.new.book ≡ self.old.book }
        ensures refused { OnErr result (self.new ≡ self.old) }
    {
        let steps = self.steps.len();
        if n > steps {
            return Err(BackFault::TooMany { steps });
        }
        self.steps.truncate(n);
        Ok(n)
    }

    // The marks of the step with this number, counted from 1.
    fn marks_of(&self, step: usize) -> Result<MarkSet, StepFault>
        ensures { result_map_both (λ s. members s) step_told result ≡ passes (of_step (marks_of (standing self.now.steps)) step) (step_check (standing self.now.steps) step) }
    {
        let steps = self.steps.len();
        if step == 0 || step > steps {
            return Err(StepFault::NotStanding { steps });
        }
        Ok(self.steps.marks_of(step))
    }

    // Whether the mark stands at the step.
    pub fn look(&self, step: usize, mark: u16) -> Result<bool, LookFault>
        ensures { answered look_told result ≡ looking (standing self.now.steps) step mark }
    {
        let marks = self.marks_of(step)?;
        let mark = Mark::new(mark).ok_or(LookFault::High { mark })?;
        Ok(marks.has(mark))
    }

    // Writes the step's sixteen words to the front of the lent ones, and nothing after them.
    pub fn show(&self, step: usize, words: &mut [u64]) -> Result<Shown, ShowFault>
        ensures answer { answered show_told result ≡ showing (standing self.now.steps) step (length words.old) }
        ensures words { words.new ≡ written (standing self.now.steps) step words.old (answered show_told result) }
    {
        let marks = self.marks_of(step)?;
        if words.len() < 16 {
            return Err(ShowFault::Short);
        }
        words[..16].copy_from_slice(&marks.words());
        Ok(shown(&marks))
    }

    // How the steps of this review and those of another stand to each other.
    pub fn compare<C: Book>(&self, other: &Review<C>) -> Comparison
        ensures { Compares (said_of (standing self.now.steps) ≡ said_of (standing other.now.steps)) (trace (standing self.now.steps)) (trace (standing other.now.steps)) result }
    {
        self.steps.compare(&other.steps)
    }
}
