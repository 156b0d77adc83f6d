// What a step hands on to the next.
ghost use Rattle.std.specs.Prelude.{◌≡◌};
ghost use Rattle.marks.specs.Words.{members};
ghost use Rattle.marks.specs.Numbers.{mark, carried};
ghost use Rattle.norms.specs.Steps.{handed_on};

use crate::record::Record;
use marks::{Attribute, Instance, MarkSet, Numbered};

impl Record {
    // Whether carried of the instance is handed on.
    fn hands_on_of(&self, instance: Instance) -> bool
        ensures { result ≡ handed_on (members self.now.marks) (mark instance.number carried) }
    {
        let created = self.marks.has(instance.mark(Attribute::Created));
        let carried = self.marks.has(instance.mark(Attribute::Carried));
        let ended = self.marks.has(instance.mark(Attribute::Ended));
        (created || carried) && !ended
    }

    // The marks that are handed on: carried of each instance that was created or carried, and not ended.
    pub fn hands_on(&self) -> MarkSet
        ensures { members result ≡ handed_on (members self.now.marks) }
    {
        let mut handed = MarkSet::empty();
        for instance in Instance::all() {
            if self.hands_on_of(instance) {
                handed.insert(instance.mark(Attribute::Carried));
            }
        }
        handed
    }
}
