// Lines of the report, each written from the front of a lent buffer. Refused, the buffer is as it was.
ghost use Rattle.std.specs.Prelude.{◌≡◌, ◌≤◌, length, IfOk, ◌==◌};
ghost use Rattle.std.specs.Result.{result_err};
ghost use Rattle.refusals.specs.Telling.{answered};
ghost use Rattle.bookfile.specs.Views.{name_list};
ghost use Rattle.lines.specs.Faults.{short_told};
ghost use Rattle.lines.specs.Parts.{is_breach, name_text};
ghost use Rattle.lines.specs.Text.{written};
ghost use Rattle.marks.specs.Numbers.{attribute, breached};
ghost use Rattle.steps.specs.Standing.{standing};
ghost use Rattle.report.specs.Faults.{line_told};
ghost use Rattle.report.specs.Report.{name_or_number, line_answer, line_written, last_text, room_answer, if_room};

use crate::fault::LineFault;
use bookfile::Names;
use books::Book;
use lines::{Name, Short, Word, write_finding, write_refused, write_steps};
use marks::{Attribute, Instance, Mark};
use refusals::Fault;
use review::Review;

// What the finding says.
fn word_of(mark: Mark) -> Word
    ensures { is_breach result ≡ (attribute mark.number == breached) }
{
    match mark.attribute() {
        Attribute::Breached => Word::Breach,
        _ => Word::Violated,
    }
}

// The name of the instance, or its number.
fn name_of<'a>(names: &Names<'a>, instance: Instance) -> Name<'a>
    ensures { name_text result ≡ name_or_number (name_list names.now) instance.number }
{
    names
        .name(instance)
        .map_or(Name::Unnamed(instance.number()), Name::Given)
}

// Writes the line of finding k, counted from 0, and answers how many bytes it has.
pub fn report_line<B: Book>(
    review: &Review<B>,
    k: usize,
    names: &Names<'_>,
    buffer: &mut [u8],
) -> Result<usize, LineFault>
    ensures answer { answered line_told result ≡ line_answer (standing review.now.steps) (name_list names.now) k (length buffer.old) }
    ensures within { IfOk result (λ n. n ≤ length buffer.old) }
    ensures text { buffer.new ≡ line_written (standing review.now.steps) (name_list names.now) k buffer.old }
{
    let (step, number) = review.list(k)?;
    let mark = Mark::new(number).unwrap();
    Ok(write_finding(buffer, step, word_of(mark), name_of(names, mark.instance()))?)
}

// Writes the last line: how many steps stand, or the first refusal. Answers how many bytes it has.
pub fn last_line<B: Book, F: Fault>(
    review: &Review<B>,
    outcome: &Result<(), F>,
    buffer: &mut [u8],
) -> Result<usize, Short>
    ensures answer { answered short_told result ≡ room_answer (last_text (standing review.now.steps) (result_err (answered F.Fault.told outcome.now))) (length buffer.old) }
    ensures within { IfOk result (λ n. n ≤ length buffer.old) }
    ensures text { buffer.new ≡ if_room (answered short_told result) (written (last_text (standing review.now.steps) (result_err (answered F.Fault.told outcome.now))) buffer.old) buffer.old }
{
    match outcome {
        Ok(()) => write_steps(buffer, review.steps() as u8),
        Err(fault) => {
            let told = fault.tell();
            write_refused(buffer, told.number, told.spot)
        }
    }
}
