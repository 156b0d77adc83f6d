// The check of a row. The spots are offsets in the file; the row stands at `at`.
ghost use Rattle.std.specs.Prelude.{◌≡◌, ◌+◌, ◌-◌, ◌*◌, ◌^◌, ◌<◌, ◌≤◌, ◌||◌, length, is_ok, ◌==◌, nat_lt};
ghost use Rattle.refusals.specs.Telling.{answered, refusal_in};
ghost use Rattle.refusals.specs.Checks.{refuse_if, passes, ◌⨟◌, first_below};
ghost use Rattle.reading.specs.Moving.{Moved};
ghost use Rattle.marks.specs.Numbers.{attribute, carried, breached};
ghost use Rattle.rows.specs.Faults.{row_told};
ghost use Rattle.rows.specs.Rows.{head, body_count, mark_check, zero_check, row_check, row_check_at};

use crate::fault::RowFault;
use crate::row::Row;
use reading::Reader;
use refusals::Item;

// Whether the next 32 bytes are the row of a rule. The reader moves past them only if they are.
pub fn check_row(reader: &mut Reader<'_>, item: Item) -> Result<(), RowFault>
    ensures answer { answered row_told result ≡ passes tt (row_check_at item reader.old.bytes.now reader.old.at) }
    ensures moved { Moved reader.old reader.new (is_ok result) (reader.old.at + 32) }
{
    let at = reader.at();
    let mut next = *reader;
    let bytes = next.take(32, item)?;
    let row = Row::new(bytes);
    Placed { row, item, at }.check()?;
    *reader = next;
    Ok(())
}

// A row where it stands: that of the item, from the offset on.
#[derive(Clone, Copy)]
struct Placed<'a> {
    row: Row<'a>,
    item: Item,
    at: usize,
    ghost whole: { length row.bytes.now ≡ 32 },
    ghost within: { at + 32 < 2 ^ 64 },
}

impl Placed<'_> {
    fn check(&self) -> Result<(), RowFault>
        ensures { answered row_told result ≡ passes tt (row_check self.now.item self.now.at self.now.row.bytes.now) }
    {
        self.check_head()?;
        self.check_count()?;
        self.check_marks()?;
        self.check_unused()
    }

    fn check_head(&self) -> Result<(), RowFault>
        ensures { answered row_told result ≡ passes tt (refuse_if (nat_lt 1023 (head self.now.row.bytes.now)) (refusal_in self.now.item 4 self.now.at) ⨟ refuse_if (attribute (head self.now.row.bytes.now) == carried || attribute (head self.now.row.bytes.now) == breached) (refusal_in self.now.item 5 self.now.at)) }
    {
        let head = self.row.head();
        if head > 1023 {
            return Err(RowFault::HeadHigh {
                item: self.item,
                at: self.at,
            });
        }
        if matches!(head % 8, 0 | 7) {
            return Err(RowFault::HeadKind {
                item: self.item,
                at: self.at,
            });
        }
        Ok(())
    }

    fn check_count(&self) -> Result<(), RowFault>
        ensures { answered row_told result ≡ passes tt (refuse_if (nat_lt 14 (body_count self.now.row.bytes.now)) (refusal_in self.now.item 3 (self.now.at + 2))) }
    {
        if self.row.body_count() > 14 {
            return Err(RowFault::TooMany {
                item: self.item,
                at: self.at + 2,
            });
        }
        Ok(())
    }

    fn check_marks(&self) -> Result<(), RowFault>
        requires { body_count self.now.row.bytes.now ≤ 14 }
        ensures { answered row_told result ≡ passes tt (first_below (body_count self.now.row.bytes.now) (mark_check self.now.item self.now.at self.now.row.bytes.now)) }
    {
        match (0..self.row.body_count()).find(|k| self.row.mark(*k) > 1023) {
            Some(k) => Err(RowFault::MarkHigh {
                item: self.item,
                at: self.at + 4 + 2 * k,
            }),
            None => Ok(()),
        }
    }

    fn check_unused(&self) -> Result<(), RowFault>
        requires { body_count self.now.row.bytes.now ≤ 14 }
        ensures { answered row_told result ≡ passes tt (first_below (28 - 2 * body_count self.now.row.bytes.now) (zero_check self.now.item self.now.at self.now.row.bytes.now)) }
    {
        let from = 4 + 2 * self.row.body_count();
        match self.row.bytes[from..].iter().position(|byte| *byte > 0) {
            Some(k) => Err(RowFault::Unused {
                item: self.item,
                at: self.at + from + k,
            }),
            None => Ok(()),
        }
    }
}
