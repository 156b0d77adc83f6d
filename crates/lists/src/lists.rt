// Checks a list of a proposal from the front, and gathers its marks.
ghost use Rattle.std.specs.Prelude.{◌≡◌};
ghost use Rattle.std.specs.Result.{result_map_both};
ghost use Rattle.refusals.specs.Checks.{passes};
ghost use Rattle.marks.specs.Sets.{among};
ghost use Rattle.marks.specs.Words.{members};
ghost use Rattle.lists.specs.Lists.{list_check};

use crate::fault::MarksFault;
use marks::{Mark, MarkSet};

// The marks of a list with faults of the kind F, or its first fault.
pub fn check_list<F: MarksFault>(list: &[u16]) -> Result<MarkSet, F>
    ensures { result_map_both (λ s. members s) F.Fault.told result ≡ passes (among list.now) (list_check F.first F.bars list.now) }
{
    let mut marks = MarkSet::empty();
    let mut before: Option<Mark> = None;
    for (at, number) in list.iter().enumerate() {
        let Some(mark) = Mark::new(*number) else {
            return Err(F::high(at));
        };
        if before.is_some_and(|before| mark <= before) {
            return Err(F::not_rising(at));
        }
        F::admit(mark, at)?;
        marks.insert(mark);
        before = Some(mark);
    }
    Ok(marks)
}
