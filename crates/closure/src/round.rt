// One round over the rules of a book and the frame rules.
ghost use Rattle.std.specs.Prelude.{ℕ, Decides};
ghost use Rattle.std.specs.List.{ContainsAt};
ghost use Rattle.marks.specs.Sets.{Set};
ghost use Rattle.marks.specs.Words.{members};
ghost use Rattle.norms.specs.Programs.{Round};
ghost use Rattle.norms.specs.Rules.{holds_rule, breach_rule, Frame, Norms};
ghost use Rattle.closure.specs.Rounds.{AllMarks, Applies, Place, Only, Adds, Tells, Passes};
ghost use Rattle.books.specs.Asked.{body_of};

use books::Book;
use marks::{Attribute, Instance, Mark, MarkSet, Numbered};
use std::ops::Range;

// The proposed marks bar rules, and what a rule requires has to be in `from`.
#[derive(Clone, Copy)]
pub(crate) struct BookRound<'a, B> {
    pub book: &'a B,
    pub proposed: &'a MarkSet,
    pub from: &'a MarkSet,
}

impl<B: Book> BookRound<'_, B> {
    // `from` with the heads of all rules that apply. A head that the round adds serves none of its rules.
    pub(crate) fn run(&self) -> MarkSet
        ensures { Round (Norms (B.Book.rules self.now.book.now)) (members self.now.proposed.now) (members self.now.from.now) (members result) }
    {
        let mut next = *self.from;
        self.add_heads(&mut next);
        self.add_frames(&mut next);
        next
    }

    // Adds the heads of all rules of the book that apply.
    fn add_heads(&self, next: &mut MarkSet)
        ensures { Adds (ContainsAt (B.Book.rules self.now.book.now)) (members self.now.proposed.now) (members self.now.from.now) (members next.old) (members next.new) }
    {
        for n in 0..self.book.len() {
            self.add_head(n, next);
        }
    }

    // Adds the head of rule n where the rule applies.
    fn add_head(&self, n: usize, next: &mut MarkSet)
        ensures { Adds (Place (B.Book.rules self.now.book.now) n) (members self.now.proposed.now) (members self.now.from.now) (members next.old) (members next.new) }
    {
        if self.applies(n) {
            if let Some(head) = self.book.head(n) {
                next.insert(head);
            }
        }
    }

    // Whether rule n stays in the reduct by the proposed marks and each mark that it requires is in `from`.
    fn applies(&self, n: usize) -> bool
        ensures { Decides result (Applies (B.Book.rules self.now.book.now) (members self.now.proposed.now) (members self.now.from.now) n) }
    {
        let Some((required, barred)) = self.book.counts(n) else {
            return false;
        };
        let required = usize::from(required);
        let end = required + usize::from(barred);
        self.all_marks(n, 0..required, |mark| self.from.has(mark))
            && self.all_marks(n, required..end, |mark| !self.proposed.has(mark))
    }

    // Whether all body marks of rule n at these places pass the test.
    fn all_marks<T: Fn(Mark) -> bool>(&self, n: usize, mut places: Range<usize>, test: T) -> bool
        requires { T.IsAlwaysCallable test }
        ensures { (S : Set ℕ) → Tells (T.post test) S → Decides result (AllMarks (B.Book.rules self.now.book.now) n places.start places.end S) }
    {
        places.all(
            |place|
                requires { T.IsAlwaysCallable test }
                ensures { Passes (T.post test) (body_of (B.Book.rules self.entry.now.book.now) n place) result }
            { self.book.body(n, place).is_none_or(&test) },
        )
    }

    // Adds the heads of all frame rules that apply.
    fn add_frames(&self, next: &mut MarkSet)
        ensures { Adds Frame (members self.now.proposed.now) (members self.now.from.now) (members next.old) (members next.new) }
    {
        for i in Instance::all() {
            self.add_holds(i, next);
            self.add_breached(i, next);
        }
    }

    // Adds holds of the instance where its rule applies. The rule bars no mark.
    fn add_holds(&self, i: Instance, next: &mut MarkSet)
        ensures { (M : Set ℕ) → Adds (Only (holds_rule i.number)) M (members self.now.from.now) (members next.old) (members next.new) }
    {
        if self.from.has(i.mark(Attribute::Carried)) {
            next.insert(i.mark(Attribute::Holds));
        }
    }

    // Adds breached of the instance where its rule applies.
    fn add_breached(&self, i: Instance, next: &mut MarkSet)
        ensures { Adds (Only (breach_rule i.number)) (members self.now.proposed.now) (members self.now.from.now) (members next.old) (members next.new) }
    {
        if self.from.has(i.mark(Attribute::Triggered))
            && !self.proposed.has(i.mark(Attribute::Enabled))
        {
            next.insert(i.mark(Attribute::Breached));
        }
    }
}
