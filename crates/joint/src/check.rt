// The check of two books that are to be joined.
ghost use Rattle.std.specs.Prelude.{◌≡◌};
ghost use Rattle.refusals.specs.Telling.{answered};
ghost use Rattle.refusals.specs.Checks.{passes};
ghost use Rattle.joint.specs.Faults.{joint_told};
ghost use Rattle.joint.specs.Joined.{joint_check, EitherOrder};

use crate::fault::JointFault;
use books::Book;

// Whether the two books have at most 1,024 rules in all.
#[tactic(auto, using(crate::proofs::Joining::few_passes, crate::proofs::Joining::either_order))]
pub fn check_joint<F: Book, S: Book>(first: &F, second: &S) -> Result<(), JointFault>
    ensures answer { answered joint_told result ≡ passes tt (joint_check (F.Book.rules first.now) (S.Book.rules second.now)) }
    ensures law { EitherOrder (F.Book.rules first.now) (S.Book.rules second.now) }
{
    if first.len() + second.len() > 1024 {
        return Err(JointFault::TooMany);
    }
    Ok(())
}
