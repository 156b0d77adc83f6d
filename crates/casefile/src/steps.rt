// Reading a case file: the number of its steps, each step, and its end. After a refusal the reader is
// where it was.
ghost use Rattle.std.specs.Prelude.{◌≡◌, ◌+◌, ◌≤◌, length, is_ok, IfOk, if◌then◌else◌, slice_index};
ghost use Rattle.std.specs.Result.{result_map_both};
ghost use Rattle.refusals.specs.Telling.{answered};
ghost use Rattle.refusals.specs.Checks.{passes};
ghost use Rattle.reading.specs.Faults.{read_told};
ghost use Rattle.reading.specs.Moving.{Moved};
ghost use Rattle.reading.specs.Reads.{ends_at};
ghost use Rattle.casefile.specs.Faults.{case_told};
ghost use Rattle.casefile.specs.Cases.{marks_in, list_at, after_list, list_check, said_at, proposed_at, after_step, step_check, case_step, count_check};
ghost use Rattle.casefile.specs.Lists.{said_of, proposed_of};

use crate::fault::CaseFault;
use crate::lists::StepLists;
use reading::{ReadFault, Reader};
use refusals::{Item, Section};

// The number of steps.
pub fn read_count(reader: &mut Reader<'_>) -> Result<u8, CaseFault>
    ensures answer { answered case_told result ≡ passes (slice_index reader.old.bytes.now reader.old.at) (count_check reader.old.bytes.now reader.old.at) }
    ensures moved { Moved reader.old reader.new (is_ok result) (reader.old.at + 1) }
{
    Ok(reader.count::<u8>(64, Item::of(Section::Case, 0))?)
}

// The bytes of the marks of the next list.
fn take_list<'a>(reader: &mut Reader<'a>, item: Item) -> Result<&'a [u8], ReadFault>
    ensures answer { answered read_told (result_map_both (λ x. marks_in x.now) (λ e. e) result) ≡ passes (list_at reader.old.bytes.now reader.old.at) (list_check item reader.old.bytes.now reader.old.at) }
    ensures short { IfOk result (λ x. length x.now ≤ 2048) }
    ensures moved { Moved reader.old reader.new (is_ok result) (after_list reader.old.bytes.now reader.old.at) }
{
    let mut next = *reader;
    let count = next.count::<u16>(1024, item)?;
    let marks = next.take(2 * usize::from(count), item)?;
    *reader = next;
    Ok(marks)
}

// Reads the lists of the next step, which is this one of the case. Refused, the lists are as they were.
pub fn read_step(reader: &mut Reader<'_>, step: u8, lists: &mut StepLists) -> Result<(), CaseFault>
    ensures answer { answered case_told result ≡ passes tt (step_check (case_step step) reader.old.bytes.now reader.old.at) }
    ensures moved { Moved reader.old reader.new (is_ok result) (after_step reader.old.bytes.now reader.old.at) }
    ensures said { said_of lists.new ≡ (if is_ok result then said_at reader.old.bytes.now reader.old.at else said_of lists.old) }
    ensures proposed { proposed_of lists.new ≡ (if is_ok result then proposed_at reader.old.bytes.now reader.old.at else proposed_of lists.old) }
{
    let item = Item::of(Section::Case, u16::from(step));
    let mut next = *reader;
    let said = take_list(&mut next, item)?;
    let proposed = take_list(&mut next, item)?;
    lists.fill(said, proposed);
    *reader = next;
    Ok(())
}

// Whether the file ends here.
pub fn read_end(reader: &Reader<'_>) -> Result<(), CaseFault>
    ensures { answered case_told result ≡ passes tt (ends_at reader.now.bytes.now reader.now.at) }
{
    Ok(reader.end()?)
}
