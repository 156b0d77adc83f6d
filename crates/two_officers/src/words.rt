// How two reviews stand to each other, in words.
use std::fmt;
use steps::Comparison;

#[derive(Clone, Copy)]
pub(crate) struct Words(pub(crate) Comparison);

// What only one of the two has.
#[derive(Clone, Copy)]
struct Own<'a> {
    who: &'a str,
    lowest: Option<(u8, u16)>,
}

impl fmt::Display for Own<'_> {
    fn fmt<W: fmt::Write>(&self, f: &mut fmt::Formatter<W>) -> fmt::Result {
        let who = self.who;
        match self.lowest {
            Some((step, mark)) => write!(f, "only the {who} has mark {mark} at step {step}"),
            None => write!(f, "the {who} has no mark of its own"),
        }
    }
}

impl fmt::Display for Words {
    fn fmt<W: fmt::Write>(&self, f: &mut fmt::Formatter<W>) -> fmt::Result {
        match self.0 {
            Comparison::OtherScenario => f.write_str("another scenario"),
            Comparison::SameTrace => f.write_str("the same trace"),
            Comparison::Different { first, second } => {
                let first = Own {
                    who: "first",
                    lowest: first,
                };
                let second = Own {
                    who: "second",
                    lowest: second,
                };
                write!(f, "different traces\n  {first}\n  {second}")
            }
        }
    }
}
