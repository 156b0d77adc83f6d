// Filling a record, and the findings of its step.
ghost use Rattle.std.specs.Prelude.{◌≡◌, ℕ, ◌<◌, ◌≤◌, true, length, Decides, MatchResult};
ghost use Rattle.marks.specs.Sets.{nothing};
ghost use Rattle.marks.specs.Words.{members};
ghost use Rattle.norms.specs.Findings.{finding, findings_in};
ghost use Rattle.steps.specs.Listed.{listed};

use crate::record::Record;
use marks::{Attribute, Mark, MarkSet, Numbered};

// No mark was said, and there is none.
// Kept: no derive, since the empty set is made by `MarkSet::empty`.
impl Default for Record {
    ghost is_default = { λ r. (members r.said ≡ nothing) × (members r.marks ≡ nothing) };

    fn default() -> Record {
        Record::new(MarkSet::empty(), MarkSet::empty())
    }
}

impl Record {
    pub fn new(said: MarkSet, marks: MarkSet) -> Record
        ensures said { result.said ≡ said }
        ensures marks { result.marks ≡ marks }
    {
        Record { said, marks }
    }

    // Writes a step into the record.
    pub fn fill(&mut self, said: MarkSet, marks: MarkSet)
        ensures said { self.new.said ≡ said }
        ensures marks { self.new.marks ≡ marks }
    {
        self.said = said;
        self.marks = marks;
    }

    // Whether the same marks were said at both steps.
    #[tactic(auto, using(marks::proofs::Words::same_marks))]
    pub(crate) fn same_said(&self, other: &Record) -> bool
        ensures { Decides result (members self.now.said ≡ members other.now.said) }
    {
        self.said == other.said
    }

    pub fn marks(&self) -> &MarkSet
        ensures { result.now ≡ self.now.marks }
    {
        &self.marks
    }

    // Whether the mark is a finding of the step.
    fn has_finding(&self, mark: Mark) -> bool
        ensures { result ≡ finding (members self.now.marks) mark.number }
    {
        match mark.attribute() {
            Attribute::Breached => self.marks.has(mark),
            Attribute::Violated => {
                self.marks.has(mark) && self.marks.has(mark.instance().mark(Attribute::Holds))
            }
            _ => false,
        }
    }

    // The same of a mark's number; above 1,023 there is no mark.
    pub fn is_finding(&self, number: u16) -> bool
        ensures { result ≡ finding (members self.now.marks) number }
    {
        Mark::new(number).is_some_and(|mark| self.has_finding(mark))
    }

    // How many findings the step has.
    pub fn findings(&self) -> u16
        ensures value { result ≡ length (findings_in (members self.now.marks)) }
        ensures low { result ≤ 1024 }
    {
        Mark::all()
            .filter(|mark| self.is_finding(mark.number()))
            .count() as u16
    }

    // Finding k of the step, counted from 0 and rising by mark, or how many findings there are.
    // Kept: the error is a count, with which a search over more steps goes on; it refuses nothing.
    pub fn finding(&self, k: usize) -> Result<u16, usize>
        ensures value { result ≡ listed (findings_in (members self.now.marks)) k }
        ensures low { MatchResult result (λ m. m < 1024) (λ n. n ≤ 1024) }
    {
        let mut seen = 0;
        for mark in Mark::all().filter(|mark| self.is_finding(mark.number())) {
            if seen == k {
                return Ok(mark.number());
            }
            seen += 1;
        }
        Err(seen)
    }
}
