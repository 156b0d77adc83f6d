// What a refusal tells: a number with one meaning on every input, and the spot.
#![tactic(auto)]

ghost use Rattle.std.specs.Prelude.{◌≡◌};
ghost use Rattle.refusals.specs.declared.Told.{Told};
ghost use Rattle.refusals.specs.declared.Section.{Section};
ghost use Rattle.refusals.specs.declared.Item.{Item};
ghost use Rattle.refusals.specs.Telling.{section_number, refusal, refusal_in};

// The number of the refusal and its spot. A refusal of a file also has the item of the file.
#[derive(Clone, Copy, PartialEq, Eq, Debug)]
pub struct Told {
    // Kept: the number itself, since it is what is shown; each fault has one definition that gives it.
    pub number: u8,
    pub item: Option<Item>,
    pub spot: usize,
}

// A fault, by what it tells. A fault that carries another tells what that one tells.
pub trait Fault {
    ghost told: { Self → Told };

    fn tell(&self) -> Told
        ensures { result ≡ told self.now };
}

// The sections of the files, by their numbers.
#[derive(Clone, Copy, PartialEq, Eq, Debug)]
pub enum Section {
    Rules = 1,
    Names = 2,
    End = 3,
    Case = 4,
    Series = 5,
}

impl Section {
    pub fn number(self) -> u8
        ensures { result ≡ section_number self }
    {
        self as u8
    }
}

// An item of a section, counted from 0: a rule, a name, a step.
#[derive(Clone, Copy, PartialEq, Eq, Debug)]
pub struct Item {
    pub section: Section,
    pub item: u16,
}

impl Item {
    pub fn of(section: Section, item: u16) -> Item
        ensures { ◌≡◌ {A = Item} result (record { section = section; item = item }) }
    {
        Item { section, item }
    }

    // What is told of a fault in this item.
    pub fn refusal(self, number: u8, spot: usize) -> Told
        ensures { result ≡ refusal_in self number spot }
    {
        Told {
            number,
            item: Some(self),
            spot,
        }
    }
}

impl Told {
    // What is told by a call that reads no file.
    pub fn call(number: u8, spot: usize) -> Told
        ensures { result ≡ refusal number spot }
    {
        Told {
            number,
            item: None,
            spot,
        }
    }
}
