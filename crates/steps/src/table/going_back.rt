// Going back to earlier steps.
ghost use Rattle.std.specs.Prelude.{◌≡◌, take};
ghost use Rattle.steps.specs.Standing.{standing};

use crate::table::Table;

impl Table {
    // Keeps the first n steps; all of them where there are no more.
    pub fn truncate(&mut self, n: usize)
        ensures { standing self.new ≡ take n (standing self.old) }
    {
        if n < self.count {
            self.count = n;
        }
    }
}
