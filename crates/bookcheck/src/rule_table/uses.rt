// Whether rules speak only of named instances.
ghost use Rattle.std.specs.Prelude.{◌≡◌, ◌+◌, ◌*◌, ◌<◌};
ghost use Rattle.refusals.specs.Telling.{answered};
ghost use Rattle.refusals.specs.Checks.{passes, first_below};
ghost use Rattle.rows.specs.Rows.{body_count};
ghost use Rattle.rows.specs.Tables.{row_at, row_in};
ghost use Rattle.bookcheck.specs.Faults.{book_told};
ghost use Rattle.bookcheck.specs.Layout.{rows_from};
ghost use Rattle.bookcheck.specs.Checks.{named_check, body_check, uses_check};

use crate::fault::BookFault;
use crate::rule_table::RuleTable;
use refusals::{Item, Section};

// Rule n of a table, where so many instances have names.
#[derive(Clone, Copy)]
struct RuleUse<'a> {
    rules: RuleTable<'a>,
    n: u16,
    names: usize,
    ghost there: { n < rules.count },
}

impl RuleTable<'_> {
    // Whether the rules speak only of the first instances, of which so many have names.
    pub(crate) fn check_uses(&self, names: usize) -> Result<(), BookFault>
        ensures { answered book_told result ≡ passes tt (first_below self.now.count (uses_check names self.now.bytes.now)) }
    {
        for n in 0..self.count {
            let rule = RuleUse {
                rules: *self,
                n,
                names,
            };
            rule.check()?;
        }
        Ok(())
    }
}

impl RuleUse<'_> {
    fn check(&self) -> Result<(), BookFault>
        ensures { answered book_told result ≡ passes tt (uses_check self.now.names self.now.rules.bytes.now self.now.n) }
    {
        let row = self.rules.row_in(usize::from(self.n));
        self.check_mark(row.head(), 0)?;
        self.check_body()
    }

    fn check_body(&self) -> Result<(), BookFault>
        ensures { answered book_told result ≡ passes tt (first_below (body_count (row_in self.now.rules.bytes.now rows_from self.now.n)) (body_check self.now.names self.now.rules.bytes.now self.now.n)) }
    {
        let row = self.rules.row_in(usize::from(self.n));
        for k in 0..row.body_count() {
            self.check_mark(row.mark(k), 4 + 2 * k)?;
        }
        Ok(())
    }

    // Whether the instance of a mark is a named one; the mark stands at the place in the row.
    fn check_mark(&self, mark: u16, place: usize) -> Result<(), BookFault>
        requires { place < 2048 }
        ensures { answered book_told result ≡ passes tt (named_check self.now.names self.now.n mark (row_at rows_from self.now.n + place)) }
    {
        if usize::from(mark / 8) < self.names {
            return Ok(());
        }
        Err(BookFault::Nameless {
            item: Item::of(Section::Rules, self.n),
            at: 2 + 32 * usize::from(self.n) + place,
        })
    }
}
