// What can be asked of the table and done to it.
ghost use Rattle.std.specs.Prelude.{◌≡◌, ℕ, ◌+◌, ◌<◌, ◌≤◌, List, [], ◌∷◌, ◌++◌, length, IfOk, Result, MatchOption};
ghost use Rattle.marks.specs.Words.{members};
ghost use Rattle.norms.specs.Steps.{Step, inherited};
ghost use Rattle.norms.specs.Findings.{findings};
ghost use Rattle.steps.specs.Listed.{listed};
ghost use Rattle.steps.specs.Standing.{standing, step_with, records_of};

use crate::record::Record;
use crate::table::{Places, Table};
use marks::MarkSet;

impl Table {
    // No step stands.
    pub fn new() -> Table
        ensures { standing result ≡ [] }
    {
        Table {
            places: Places::new(),
            count: 0,
        }
    }

    // How many steps stand.
    pub fn len(&self) -> usize
        ensures value { result ≡ length (standing self.now) }
        ensures room { result ≤ 64 }
    {
        self.count
    }

    // The records of the steps that stand, in their order.
    pub(crate) fn records(&self) -> &[Record]
        ensures { result.now ≡ records_of self.now }
    {
        &self.places.records.as_slice()[..self.count]
    }

    // One step more, and its number; none where all 64 places are taken.
    pub fn add(&mut self, said: MarkSet, marks: MarkSet) -> Option<u8>
        ensures { MatchOption result ((length (standing self.old) ≡ 64) × (self.new ≡ self.old)) (λ n. (n ≡ length (standing self.old) + 1) × (length (standing self.old) < 64) × (standing self.new ≡ standing self.old ++ (step_with said marks ∷ []))) }
    {
        let at = self.count;
        // Kept: the record of the next place is lent and filled, so that no other record is touched.
        self.places.record_mut(at)?.fill(said, marks);
        self.count = at + 1;
        Some(at as u8 + 1)
    }

    // What the last step hands on; nothing before the first.
    pub fn inherited(&self) -> MarkSet
        ensures { members result ≡ inherited (standing self.now) }
    {
        self.records()
            .last()
            .map_or_else(MarkSet::empty, Record::hands_on)
    }

    // Finding k of all steps, by step and then by mark, or how many findings there are.
    pub fn finding(&self, k: usize) -> Result<(u8, u16), usize>
        ensures value { result ≡ listed (findings (standing self.now)) k }
        ensures low { IfOk result (λ d. d.1 < 1024) }
    {
        // Kept: past the end the answer is how many there are, which a chain over all findings would count anew.
        let mut seen = 0;
        for (at, record) in self.records().iter().enumerate() {
            match record.finding(k - seen) {
                Ok(mark) => return Ok((at as u8 + 1, mark)),
                Err(here) => seen += here,
            }
        }
        Err(seen)
    }
}
