// What can be asked of a set of marks and done to it.
ghost use Rattle.std.specs.Prelude.{◌≡◌, ℕ, false, ◌||◌, MatchOption};
ghost use Rattle.marks.specs.Sets.{Set, nothing, either, beyond, ◌∈◌, ◌⊆◌};
ghost use Rattle.marks.specs.Words.{members, with_mark};
ghost use Rattle.marks.specs.Members.{words_of};

use crate::mark::Mark;
use crate::mark_set::MarkSet;
use crate::numbered::Numbered;
use std::array;

impl MarkSet {
    #[tactic(auto, using(crate::proofs::Held::held_empty))]
    pub fn empty() -> MarkSet
        ensures { members result ≡ nothing }
    {
        MarkSet { words: [0; 16] }
    }

    pub fn has(&self, mark: Mark) -> bool
        ensures { result ≡ members self.now mark.number }
    {
        let m = mark.number();
        self.words[usize::from(m / 64)] >> (m % 64) & 1 == 1
    }

    // The sixteen words of the set.
    #[tactic(auto, using(crate::proofs::Words::words_are))]
    pub fn words(&self) -> [u64; 16]
        ensures { result ≡ words_of (members self.now) }
    {
        self.words
    }

    pub fn insert(&mut self, mark: Mark)
        ensures { members self.new ≡ with_mark mark.number (members self.old) }
    {
        let m = mark.number();
        self.words[usize::from(m / 64)] |= 1 << (m % 64);
    }

    // Adds all marks of the other set.
    pub fn unite(&mut self, other: &MarkSet)
        ensures { members self.new ≡ either (members self.old) (members other.now) }
    {
        self.words = array::from_fn(|i| self.words[i] | other.words[i]);
    }

    // A mark of this set that the other lacks, or none where there is no such mark.
    pub fn beyond(&self, other: &MarkSet) -> Option<Mark>
        ensures { MatchOption result (members self.now ⊆ members other.now) (λ m. (m.number ∈ members self.now) × (members other.now m.number ≡ false)) }
    {
        Mark::all().find(|mark| self.has(*mark) && !other.has(*mark))
    }

    // The marks of this set that the other lacks.
    pub fn without(&self, other: &MarkSet) -> MarkSet
        ensures { members result ≡ beyond (members self.now) (members other.now) }
    {
        MarkSet {
            words: array::from_fn(|i| self.words[i] & !other.words[i]),
        }
    }
}
