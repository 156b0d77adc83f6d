// The lines of a report, each written from the front of a buffer. A line that does not fit is refused, and
// the buffer is then as it was.
ghost use Rattle.std.specs.Prelude.{◌≡◌, ◌≤◌, length, if◌then◌else◌, codes};
ghost use Rattle.lines.specs.Faults.{short_told};
ghost use Rattle.lines.specs.Parts.{is_breach, name_text};
ghost use Rattle.lines.specs.Text.{finding_line, steps_line, refused_line};
ghost use Rattle.lines.specs.Writing.{Writes};

use crate::fault::Short;
use crate::pieces::write_pieces;
use itoa::Buffer;

// What a finding says.
#[derive(Clone, Copy, PartialEq, Eq, Debug)]
pub enum Word {
    Breach,
    Violated,
}

// The name of an instance, or its number where it has no name.
#[derive(Clone, Copy, PartialEq, Eq, Debug)]
pub enum Name<'a> {
    Given(&'a [u8]),
    Unnamed(u8),
}

impl Word {
    fn text(&self) -> &[u8]
        ensures value { result.now ≡ (if is_breach self.now then codes "breach" else codes "violated") }
        ensures short { length result.now ≤ 8 }
    {
        match *self {
            Word::Breach => b"breach",
            Word::Violated => b"violated",
        }
    }
}

// The line of a finding.
pub fn write_finding(
    buffer: &mut [u8],
    step: u8,
    word: Word,
    name: Name<'_>,
) -> Result<usize, Short>
    ensures { Writes short_told (finding_line step (is_breach word) (name_text name.entry)) buffer.old buffer.new result }
{
    let mut digits = Buffer::new();
    let step = digits.format(step).as_bytes();
    let word = word.text();
    match name {
        Name::Given(name) => write_pieces(buffer, &[step, b" ", word, b" ", name, b"\n"]),
        Name::Unnamed(instance) => {
            let mut digits = Buffer::new();
            let number = digits.format(instance).as_bytes();
            write_pieces(buffer, &[step, b" ", word, b" #", number, b"\n"])
        }
    }
}

// The last line of a case that was read whole.
pub fn write_steps(buffer: &mut [u8], count: u8) -> Result<usize, Short>
    ensures { Writes short_told (steps_line count) buffer.old buffer.new result }
{
    let mut digits = Buffer::new();
    write_pieces(buffer, &[b"steps ", digits.format(count).as_bytes(), b"\n"])
}

// The last line of a case that was refused.
pub fn write_refused(buffer: &mut [u8], number: u8, spot: usize) -> Result<usize, Short>
    ensures { Writes short_told (refused_line number spot) buffer.old buffer.new result }
{
    let mut digits = Buffer::new();
    let number = digits.format(number).as_bytes();
    let mut digits = Buffer::new();
    let spot = digits.format(spot).as_bytes();
    write_pieces(buffer, &[b"refused ", number, b" ", spot, b"\n"])
}
