// Hearing the steps of a case one by one.
ghost use Rattle.std.specs.Prelude.{◌≡◌, is_ok};
ghost use Rattle.std.specs.Result.{result_err};
ghost use Rattle.refusals.specs.Telling.{answered};
ghost use Rattle.reading.specs.Moving.{Moved};
ghost use Rattle.casefile.specs.Cases.{case_steps, case_end, after_step};
ghost use Rattle.steps.specs.Standing.{standing};
ghost use Rattle.run.specs.Runs.{Hears, HearsStep};
ghost use Rattle.run.specs.Faults.{run_told};

use crate::fault::RunFault;
use books::Book;
use casefile::{StepLists, read_count, read_end, read_step};
use reading::Reader;
use review::Review;

// Reads the next step, which is this one of the case, whole, and proposes it. After a refusal the reader is where it was.
fn hear_step<B: Book>(
    review: &mut Review<B>,
    reader: &mut Reader<'_>,
    step: u8,
    lists: &mut StepLists,
) -> Result<(), RunFault>
    ensures heard { HearsStep (B.Book.rules review.old.book) reader.old.bytes.now step reader.old.at (standing review.old.steps) (result_err (answered run_told result)) (standing review.new.steps) }
    ensures book { review.new.book ≡ review.old.book }
    ensures moved { Moved reader.old reader.new (is_ok result) (after_step reader.old.bytes.now reader.old.at) }
{
    let mut next = *reader;
    read_step(&mut next, step, lists)?;
    review.propose(lists.said(), lists.proposed())?;
    *reader = next;
    Ok(())
}

// Reads one whole step at a time and proposes it, until one is refused; bytes left over are looked at
// last.
#[tactic(auto, using(crate::proofs::Rest::count_stops, crate::proofs::Rest::count_goes_on, crate::proofs::Rest::goes_on, crate::proofs::Rest::stops, crate::proofs::Rest::ends))]
// Kept: apart from the check of a case file, since no closure could both read on and say what the review holds.
pub fn hear<B: Book>(review: &mut Review<B>, case: &[u8]) -> Result<(), RunFault>
    ensures heard { Hears (B.Book.rules review.old.book) (standing review.old.steps) (case_steps case.now) (case_end case.now) (result_err (answered run_told result)) (standing review.new.steps) }
    ensures book { review.new.book ≡ review.old.book }
{
    let mut reader = Reader::new(case);
    let steps = read_count(&mut reader)?;
    let mut lists = StepLists::empty();
    for step in 0..steps {
        hear_step(review, &mut reader, step, &mut lists)?;
    }
    read_end(&reader)?;
    Ok(())
}
