// Why two books cannot be joined.
ghost use Rattle.joint.specs.Faults.{joint_told};

use refusals::{Fault, Told};

#[derive(Clone, Copy, PartialEq, Eq, Debug)]
pub enum JointFault {
    // There are more than 1,024 rules in all.
    TooMany,
}

impl Fault for JointFault {
    ghost told = { joint_told };

    fn tell(&self) -> Told {
        match *self {
            JointFault::TooMany => Told::call(12, 0),
        }
    }
}
