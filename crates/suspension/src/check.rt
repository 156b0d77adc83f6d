// The check of the numbers of rules that are to be set aside.
ghost use Rattle.std.specs.Prelude.{◌≡◌, length};
ghost use Rattle.refusals.specs.Telling.{answered};
ghost use Rattle.refusals.specs.Checks.{passes, first_below};
ghost use Rattle.suspension.specs.Checks.{number_check, suspension_check};
ghost use Rattle.suspension.specs.Faults.{suspension_told};

use crate::fault::SuspensionFault;
use books::Book;

// Whether the numbers rise and each names one of so many rules.
// Kept: apart from the check of a list of marks, since any number may stand here and one refusal tells both faults.
fn check_numbers(numbers: &[u16], count: usize) -> Result<(), SuspensionFault>
    ensures { answered suspension_told result ≡ passes tt (first_below (length numbers.now) (number_check count numbers.now)) }
{
    let mut before = None;
    for (at, number) in numbers.iter().enumerate() {
        let rises = before.is_none_or(|low| low < *number);
        if !rises || usize::from(*number) >= count {
            return Err(SuspensionFault::Number { at });
        }
        before = Some(*number);
    }
    Ok(())
}

// Whether these rules of the book can be set aside.
pub fn check_suspension<B: Book>(book: &B, numbers: &[u16]) -> Result<(), SuspensionFault>
    ensures { answered suspension_told result ≡ passes tt (suspension_check (length (B.Book.rules book.now)) numbers.now) }
{
    let count = numbers.len();
    if count > 16 {
        return Err(SuspensionFault::TooMany { count });
    }
    check_numbers(numbers, book.len())
}
