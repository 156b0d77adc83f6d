// The steps by their numbers, and how the steps of two tables stand to each other.
ghost use Rattle.std.specs.Prelude.{◌≡◌, Decides};
ghost use Rattle.marks.specs.Sets.{beyond};
ghost use Rattle.marks.specs.Words.{members};
ghost use Rattle.norms.specs.Traces.{of_step};
ghost use Rattle.norms.specs.Scenarios.{said_of, marks_of, trace, Lowest};
ghost use Rattle.steps.specs.Standing.{standing};
ghost use Rattle.steps.specs.Compared.{Compares};

use crate::comparison::Comparison;
use crate::table::Table;
use marks::MarkSet;
use members::lowest_beyond;

impl Table {
    // The marks of the step with this number, from 1; no mark where there is no such step.
    pub fn marks_of(&self, step: usize) -> MarkSet
        ensures { members result ≡ of_step (marks_of (standing self.now)) step }
    {
        step.checked_sub(1)
            .and_then(|at| self.records().get(at))
            .map_or_else(MarkSet::empty, |record| *record.marks())
    }

    // Whether both tables are of the same scenario: equally many steps, and the same marks said at each.
    fn same_scenario(&self, other: &Table) -> bool
        ensures { Decides result (said_of (standing self.now) ≡ said_of (standing other.now)) }
    {
        self.len() == other.len()
            && self
                .records()
                .iter()
                .zip(other.records())
                .all(|(own, its)| own.same_said(its))
    }

    // The lowest dated mark of this table's steps that the other's lack.
    fn lowest_beyond(&self, other: &Table) -> Option<(u8, u16)>
        ensures { Lowest (beyond (trace (standing self.now)) (trace (standing other.now))) result }
    {
        for (at, record) in self.records().iter().enumerate() {
            if let Some(mark) = lowest_beyond(record.marks(), &other.marks_of(at + 1)) {
                return Some((at as u8 + 1, mark.number()));
            }
        }
        None
    }

    // How the steps of this table, the first, and those of the other, the second, stand to each other.
    pub fn compare(&self, other: &Table) -> Comparison
        ensures { Compares (said_of (standing self.now) ≡ said_of (standing other.now)) (trace (standing self.now)) (trace (standing other.now)) result }
    {
        if !self.same_scenario(other) {
            return Comparison::OtherScenario;
        }
        match (self.lowest_beyond(other), other.lowest_beyond(self)) {
            (None, None) => Comparison::SameTrace,
            (first, second) => Comparison::Different { first, second },
        }
    }
}
