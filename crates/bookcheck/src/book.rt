// The check of a book file.
ghost use Rattle.std.specs.Prelude.{◌≡◌, true, ◌↔◌, is_ok, IfOk};
ghost use Rattle.std.specs.Result.{result_map_both};
ghost use Rattle.refusals.specs.Telling.{answered};
ghost use Rattle.refusals.specs.Checks.{passes};
ghost use Rattle.reading.specs.Moving.{Moved};
ghost use Rattle.bookcheck.specs.Faults.{book_told};
ghost use Rattle.bookcheck.specs.Layout.{rule_count, file_rules, names_count_at, name_count, names_from, name_at, file_names};
ghost use Rattle.bookcheck.specs.Checks.{rules_check, names_check, book_check};
ghost use Rattle.bookcheck.specs.Views.{table_rules, table_names};
ghost use Rattle.bookcheck.specs.Written.{BookFile};

use crate::fault::BookFault;
use crate::name_table::NameTable;
use crate::rule_table::RuleTable;
use reading::Reader;
use refusals::{Item, Section};

// The parts of a book file.
#[derive(Clone, Copy)]
pub struct BookParts<'a> {
    pub rules: RuleTable<'a>,
    pub names: NameTable<'a>,
}

// The rules, where their count and their rows are in order. The reader, which stands at the front, moves past them only
// if they are.
fn read_rules<'a>(reader: &mut Reader<'a>) -> Result<RuleTable<'a>, BookFault>
    requires { reader.old.at ≡ 0 }
    ensures answer { answered book_told (result_map_both (λ _. tt {0}) (λ e. e) result) ≡ passes tt (rules_check reader.old.bytes.now) }
    ensures table { IfOk result (λ t. (t.bytes.now ≡ reader.old.bytes.now) × (t.count ≡ rule_count reader.old.bytes.now)) }
    ensures moved { Moved reader.old reader.new (is_ok result) (names_count_at reader.old.bytes.now) }
{
    let mut next = *reader;
    let count = next.count::<u16>(512, Item::of(Section::Rules, 0))?;
    let rules = RuleTable::read(&mut next, count)?;
    *reader = next;
    Ok(rules)
}

// The names, where their count and they are in order. The reader, which stands at the count, moves past them only if
// they are.
// Kept: one function for the rules and one for the names, since limits, items and clauses all differ.
fn read_names<'a>(reader: &mut Reader<'a>) -> Result<NameTable<'a>, BookFault>
    requires { reader.old.at ≡ names_count_at reader.old.bytes.now }
    ensures answer { answered book_told (result_map_both (λ _. tt {0}) (λ e. e) result) ≡ passes tt (names_check reader.old.bytes.now) }
    ensures table { IfOk result (λ t. (t.bytes.now ≡ reader.old.bytes.now) × (t.from ≡ names_from reader.old.bytes.now) × (t.count ≡ name_count reader.old.bytes.now)) }
    ensures moved { Moved reader.old reader.new (is_ok result) (name_at reader.old.bytes.now (names_from reader.old.bytes.now) (name_count reader.old.bytes.now)) }
{
    let mut next = *reader;
    let count = next.count::<u8>(128, Item::of(Section::Names, 0))?;
    let names = NameTable::read(&mut next, count)?;
    *reader = next;
    Ok(names)
}

// The parts of the bytes, where they are a book file.
#[tactic(auto, unfolding(crate::specs::Checks::book_check))]
pub fn read_book(bytes: &[u8]) -> Result<BookParts<'_>, BookFault>
    ensures answer { answered book_told (result_map_both (λ _. tt {0}) (λ e. e) result) ≡ passes tt (book_check bytes.now) }
    ensures rules { IfOk result (λ book. table_rules book.rules ≡ file_rules bytes.now) }
    ensures names { IfOk result (λ book. table_names book.names ≡ file_names bytes.now) }
{
    let mut reader = Reader::new(bytes);
    let rules = read_rules(&mut reader)?;
    let names = read_names(&mut reader)?;
    reader.end()?;
    rules.check_uses(names.len())?;
    Ok(BookParts { rules, names })
}

// Whether the bytes are a book file.
#[tactic(auto, using(crate::proofs::Law::call_law))]
pub fn check_book(bytes: &[u8]) -> Result<(), BookFault>
    ensures answer { answered book_told result ≡ passes tt (book_check bytes.now) }
    ensures law { (is_ok result ≡ true) ↔ BookFile bytes.now }
{
    read_book(bytes)?;
    Ok(())
}
