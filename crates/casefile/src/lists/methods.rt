// The marks that are kept of a step, and their reading from bytes.
ghost use Rattle.std.specs.Prelude.{◌≡◌, ◌≤◌, [], length};
ghost use Rattle.casefile.specs.Cases.{marks_in};
ghost use Rattle.casefile.specs.Lists.{marks_of, said_of, proposed_of};

use crate::lists::{MarkList, StepLists};

impl MarkList {
    fn empty() -> MarkList
        ensures { marks_of result ≡ [] }
    {
        MarkList {
            marks: [0; 1024],
            count: 0,
        }
    }

    fn marks(&self) -> &[u16]
        ensures value { result.now ≡ marks_of self.now }
        ensures short { length result.now ≤ 1024 }
    {
        &self.marks[0..self.count]
    }

    // The marks of these bytes, two bytes to a mark.
    fn fill(&mut self, bytes: &[u8])
        requires { length bytes.now ≤ 2048 }
        ensures { marks_of self.new ≡ marks_in bytes.now }
    {
        let count = bytes.len() / 2;
        for i in 0..count {
            self.marks[i] = bytes[2 * i] as u16 * 256 + bytes[2 * i + 1] as u16;
        }
        self.count = count;
    }
}

impl StepLists {
    // Two lists with no marks.
    pub fn empty() -> StepLists
        ensures said { said_of result ≡ [] }
        ensures proposed { proposed_of result ≡ [] }
    {
        StepLists {
            said: MarkList::empty(),
            proposed: MarkList::empty(),
        }
    }

    pub fn said(&self) -> &[u16]
        ensures value { result.now ≡ said_of self.now }
        ensures short { length result.now ≤ 1024 }
    {
        self.said.marks()
    }

    pub fn proposed(&self) -> &[u16]
        ensures value { result.now ≡ proposed_of self.now }
        ensures short { length result.now ≤ 1024 }
    {
        self.proposed.marks()
    }

    // The marks of these bytes, two bytes to a mark.
    pub(crate) fn fill(&mut self, said: &[u8], proposed: &[u8])
        requires { (length said.now ≤ 2048) × (length proposed.now ≤ 2048) }
        ensures said { said_of self.new ≡ marks_in said.now }
        ensures proposed { proposed_of self.new ≡ marks_in proposed.now }
    {
        self.said.fill(said);
        self.proposed.fill(proposed);
    }
}
