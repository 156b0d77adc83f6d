// The check of a case file.
ghost use Rattle.std.specs.Prelude.{◌≡◌, ℕ, true, ◌↔◌, List, is_ok};
ghost use Rattle.refusals.specs.Telling.{answered};
ghost use Rattle.refusals.specs.Checks.{passes};
ghost use Rattle.casefile.specs.Faults.{case_told};
ghost use Rattle.casefile.specs.Cases.{case_steps, case_end};
ghost use Rattle.casefile.specs.Written.{FileOf, CaseFile};

use crate::fault::CaseFault;
use crate::lists::StepLists;
use crate::steps::{read_count, read_end, read_step};
use reading::Reader;

// Whether the bytes are a case file.
#[tactic(auto, using(crate::proofs::More::goes_on))]
pub fn check_case(bytes: &[u8]) -> Result<(), CaseFault>
    ensures answer { answered case_told result ≡ passes tt (case_end bytes.now) }
    ensures law { (is_ok result ≡ true) ↔ CaseFile bytes.now }
    ensures meant { (steps : List (List ℕ × List ℕ)) → FileOf steps bytes.now → case_steps bytes.now ≡ steps }
{
    let mut reader = Reader::new(bytes);
    let mut lists = StepLists::empty();
    let count = read_count(&mut reader)?;
    for step in 0..count {
        read_step(&mut reader, step, &mut lists)?;
    }
    read_end(&reader)
}
