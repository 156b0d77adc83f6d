// From numbers to instances, attributes and marks, and back.
ghost use Rattle.std.specs.Prelude.{◌≡◌, ◌+◌, ◌*◌, ◌/◌, ◌%◌, ◌<◌, ◌≤◌, ◌^◌, MatchOption};
ghost use Rattle.marks.specs.Numbers.{mark, instance, attribute};
ghost use Rattle.marks.specs.Attributes.{attribute_number};
ghost use Rattle.std.proofs.Common.{refl};
ghost use Rattle.std.proofs.lemmas.Bool.{ltb-true};

use crate::mark::{Attribute, Instance, Mark};
use crate::numbered::Numbered;

impl Attribute {
    pub fn number(self) -> u8
        ensures value { result ≡ attribute_number self }
        ensures low { result < 8 }
    {
        self as u8
    }
}

impl Instance {
    // The instance of this number, or none above 127.
    pub fn new(number: u8) -> Option<Instance>
        ensures { MatchOption result (128 ≤ number) (λ i. i.number ≡ number) }
    {
        if number < 128 {
            Some(Instance { number })
        } else {
            None
        }
    }

    pub fn number(self) -> u8
        ensures value { result ≡ self.number }
        ensures low { result < 128 }
    {
        self.number
    }

    // The mark that says this of the instance.
    pub fn mark(self, says: Attribute) -> Mark
        ensures { result.number ≡ mark self.number (attribute_number says) }
    {
        Mark {
            number: 8 * u16::from(self.number) + u16::from(says.number()),
        }
    }
}

impl Mark {
    // The mark of this number, or none above 1,023.
    // Kept: a constructor for each of the two types beside the generic `numbered`, since callers have the number in its width.
    pub fn new(number: u16) -> Option<Mark>
        ensures { MatchOption result (1024 ≤ number) (λ m. m.number ≡ number) }
    {
        if number < 1024 {
            Some(Mark { number })
        } else {
            None
        }
    }

    pub fn number(self) -> u16
        ensures value { result ≡ self.number }
        ensures low { result < 1024 }
    {
        self.number
    }

    pub fn instance(self) -> Instance
        ensures { result.number ≡ instance self.number }
    {
        Instance {
            number: (self.number / 8) as u8,
        }
    }

    pub fn attribute(self) -> Attribute
        ensures { attribute_number result ≡ attribute self.number }
    {
        // Kept: no cast leads from a number to an enum.
        match self.number % 8 {
            0 => Attribute::Carried,
            1 => Attribute::Holds,
            2 => Attribute::Enabled,
            3 => Attribute::Triggered,
            4 => Attribute::Created,
            5 => Attribute::Ended,
            6 => Attribute::Violated,
            _ => Attribute::Breached,
        }
    }
}

impl Numbered for Instance {
    ghost number = { λ i. i.number };

    ghost end = { 128 };

    ghost low = { ltb-true 128 (2 ^ 16) refl };

    ghost within = { λ i. i.low };

    fn numbered(n: u16) -> Option<Instance> {
        Instance::new(u8::try_from(n).ok()?)
    }
}

impl Numbered for Mark {
    ghost number = { λ m. m.number };

    ghost end = { 1024 };

    ghost low = { ltb-true 1024 (2 ^ 16) refl };

    ghost within = { λ m. m.low };

    fn numbered(n: u16) -> Option<Mark> {
        Mark::new(n)
    }
}
