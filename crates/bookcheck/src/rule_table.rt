// The rules of a book file, over its bytes: each has a row that is in order.
ghost use Rattle.std.specs.Prelude.{◌≡◌, ◌<◌, ◌≤◌, false, is_some, is_ok, IfOk, MatchOption};
ghost use Rattle.std.specs.Result.{result_map_both};
ghost use Rattle.refusals.specs.Telling.{answered};
ghost use Rattle.refusals.specs.Checks.{passes};
ghost use Rattle.refusals.specs.declared.Section.TheVariants.{Rules};
ghost use Rattle.reading.specs.Moving.{Moved};
ghost use Rattle.rows.specs.Faults.{row_told};
ghost use Rattle.rows.specs.Tables.{row_at, row_in, rows_check};
ghost use Rattle.bookcheck.specs.Layout.{rows_from};

mod uses;

use reading::Reader;
use refusals::{Item, Section};
use rows::{Row, RowFault, check_row};

#[derive(Clone, Copy)]
pub struct RuleTable<'a> {
    // Kept: the file's bytes and a count, and no slice of rows, since spots are offsets in the file.
    bytes: &'a [u8],
    count: u16,
    ghost few: { count ≤ 512 },
    ghost checked: { is_some (rows_check Rules bytes.now rows_from count) ≡ false },
}

impl<'a> RuleTable<'a> {
    // No rules.
    pub fn empty(bytes: &'a [u8]) -> RuleTable<'a>
        ensures { result.count ≡ 0 }
    {
        RuleTable { bytes, count: 0 }
    }

    // The rules of which the next rows are, where they are in order. The reader, which stands at the first row, moves
    // past them only if they are.
    pub(crate) fn read(reader: &mut Reader<'a>, count: u16) -> Result<RuleTable<'a>, RowFault>
        requires few { count ≤ 512 }
        requires here { reader.old.at ≡ rows_from }
        ensures answer { answered row_told (result_map_both (λ _. tt {0}) (λ e. e) result) ≡ passes tt (rows_check Rules reader.old.bytes.now rows_from count) }
        ensures table { IfOk result (λ t. (t.bytes.now ≡ reader.old.bytes.now) × (t.count ≡ count)) }
        ensures moved { Moved reader.old reader.new (is_ok result) (row_at rows_from count) }
    {
        let mut next = *reader;
        for n in 0..count {
            check_row(&mut next, Item::of(Section::Rules, n))?;
        }
        *reader = next;
        Ok(RuleTable {
            bytes: next.bytes(),
            count,
        })
    }

    pub fn len(&self) -> usize
        ensures { result ≡ self.now.count }
    {
        usize::from(self.count)
    }

    // The row of rule n, where there are so many.
    pub fn row(&self, n: usize) -> Option<Row<'a>>
        ensures { MatchOption result (self.now.count ≤ n) (λ row. (n < self.now.count) × (row.bytes.now ≡ row_in self.now.bytes.now rows_from n)) }
    {
        if n < self.len() {
            Some(self.row_in(n))
        } else {
            None
        }
    }

    // The row of rule n.
    pub(crate) fn row_in(&self, n: usize) -> Row<'a>
        requires { n < self.now.count }
        ensures { result.bytes.now ≡ row_in self.now.bytes.now rows_from n }
    {
        let at = 2 + 32 * n;
        Row::new(&self.bytes[at..at + 32])
    }
}
