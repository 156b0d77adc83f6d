// How the steps of two tables stand to each other.

// Another scenario: the steps are not equally many, or other marks were said. The same trace: the same scenario, and
// the same marks at each step. Different ones: the same scenario, with the lowest dated mark that only the first has,
// if any, and the lowest that only the second has, if any. A dated mark is a step with a mark; the lowest is the
// earliest by step, and at one step by mark.
#[derive(Clone, Copy, PartialEq, Eq, Debug)]
pub enum Comparison {
    OtherScenario,
    SameTrace,
    Different {
        first: Option<(u8, u16)>,
        second: Option<(u8, u16)>,
    },
}
