// The check of names, each against those before it.
ghost use Rattle.std.specs.Prelude.{◌≡◌, ◌+◌, is_ok, IfOk, length};
ghost use Rattle.std.specs.Result.{result_map_both};
ghost use Rattle.refusals.specs.Telling.{answered};
ghost use Rattle.refusals.specs.Checks.{passes, first_below};
ghost use Rattle.reading.specs.Moving.{Moved};
ghost use Rattle.bookcheck.specs.Faults.{name_told};
ghost use Rattle.bookcheck.specs.Layout.{name_at};
ghost use Rattle.bookcheck.specs.Checks.{unfit, byte_check, apart_check, name_check};

use crate::fault::NameFault;
use crate::name_table::NameTable;
use reading::Reader;
use refusals::{Item, Section};

impl<'a> NameTable<'a> {
    // The next names, of which there are so many, where they are in order. The reader moves past them only if they are.
    pub(crate) fn read(reader: &mut Reader<'a>, count: u8) -> Result<NameTable<'a>, NameFault>
        ensures answer { answered name_told (result_map_both (λ _. tt {0}) (λ e. e) result) ≡ passes tt (first_below count (name_check reader.old.bytes.now reader.old.at)) }
        ensures table { IfOk result (λ t. (t.bytes.now ≡ reader.old.bytes.now) × (t.from ≡ reader.old.at) × (t.count ≡ count)) }
        ensures moved { Moved reader.old reader.new (is_ok result) (name_at reader.old.bytes.now reader.old.at count) }
    {
        let bytes = reader.bytes();
        let from = reader.at();
        let mut next = *reader;
        for n in 0..count {
            NameTable {
                bytes,
                from,
                count: n,
            }
            .check_next(&mut next)?;
        }
        *reader = next;
        Ok(NameTable { bytes, from, count })
    }

    // Whether the name after these, which the reader has come to, is in order. The reader moves past it only if it is.
    #[tactic(auto, using(crate::proofs::Walk::name_at_more))]
    fn check_next(&self, reader: &mut Reader<'_>) -> Result<(), NameFault>
        requires same { reader.old.bytes.now ≡ self.now.bytes.now }
        requires here { reader.old.at ≡ name_at self.now.bytes.now self.now.from self.now.count }
        ensures answer { answered name_told result ≡ passes tt (name_check self.now.bytes.now self.now.from self.now.count) }
        ensures moved { Moved reader.old reader.new (is_ok result) (name_at self.now.bytes.now self.now.from (self.now.count + 1)) }
    {
        let item = Item::of(Section::Names, u16::from(self.count));
        let at = reader.at();
        let mut next = *reader;
        let length = next.number::<u8>(item)?;
        if !matches!(length, 1..=32) {
            return Err(NameFault::Bad { item, at });
        }
        let name = next.take(usize::from(length), item)?;
        let placed = PlacedName { name, item, at };
        placed.check_fit()?;
        placed.check_new(self)?;
        *reader = next;
        Ok(())
    }
}

// A name where it stands: that of the item, with its length byte at the offset.
#[derive(Clone, Copy)]
struct PlacedName<'a> {
    name: &'a [u8],
    item: Item,
    at: usize,
}

impl PlacedName<'_> {
    fn check_fit(&self) -> Result<(), NameFault>
        ensures { answered name_told result ≡ passes tt (first_below (length self.now.name.now) (byte_check self.now.item self.now.at self.now.name.now)) }
    {
        if self.name.iter().any(|byte| is_unfit(*byte)) {
            return Err(NameFault::Bad {
                item: self.item,
                at: self.at,
            });
        }
        Ok(())
    }

    // Whether the name is none of the earlier ones.
    fn check_new(&self, earlier: &NameTable<'_>) -> Result<(), NameFault>
        ensures { answered name_told result ≡ passes tt (first_below earlier.now.count (apart_check self.now.item self.now.at earlier.now.bytes.now earlier.now.from self.now.name.now)) }
    {
        if earlier.iter().any(|name| name == self.name) {
            return Err(NameFault::Repeated {
                item: self.item,
                at: self.at,
            });
        }
        Ok(())
    }
}

// Whether the byte may not stand in a name.
fn is_unfit(byte: u8) -> bool
    ensures { result ≡ unfit byte }
{
    !matches!(byte, b'!'..=b'~') || byte == b'#'
}
