// Reading on, or saying why that is refused. After a refusal the reader is where it was.
ghost use Rattle.std.specs.Prelude.{◌≡◌, ◌+◌, ◌≤◌, length, is_ok};
ghost use Rattle.std.specs.Result.{result_map_both};
ghost use Rattle.refusals.specs.Telling.{answered};
ghost use Rattle.refusals.specs.Checks.{passes, ◌⨟◌};
ghost use Rattle.reading.specs.Faults.{read_told};
ghost use Rattle.reading.specs.Moving.{Moved};
ghost use Rattle.reading.specs.Reads.{part, there, at_most, ends_at};

use crate::fault::ReadFault;
use crate::number::Number;
use crate::reader::Reader;
use refusals::Item;

impl<'a> Reader<'a> {
    // At the front of the bytes.
    pub fn new(bytes: &'a [u8]) -> Reader<'a>
        ensures bytes { result.bytes.now ≡ bytes.now }
        ensures at { result.at ≡ 0 }
    {
        Reader { bytes, at: 0 }
    }

    // Whether the next n bytes are there.
    pub fn need(&self, n: usize, item: Item) -> Result<(), ReadFault>
        ensures { answered read_told result ≡ passes tt (there item self.now.bytes.now self.now.at n) }
    {
        let length = self.bytes.len();
        if length - self.at < n {
            return Err(ReadFault::Ended { item, length });
        }
        Ok(())
    }

    // All bytes, from the front on.
    pub fn bytes(&self) -> &'a [u8]
        ensures { result.now ≡ self.now.bytes.now }
    {
        self.bytes
    }

    // The offset of the next byte.
    pub fn at(&self) -> usize
        ensures value { result ≡ self.now.at }
        ensures within { result ≤ length self.now.bytes.now }
    {
        self.at
    }

    // The next n bytes.
    pub fn take(&mut self, n: usize, item: Item) -> Result<&'a [u8], ReadFault>
        ensures answer { answered read_told (result_map_both (λ x. x.now) (λ e. e) result) ≡ passes (part self.old.bytes.now self.old.at n) (there item self.old.bytes.now self.old.at n) }
        ensures moved { Moved self.old self.new (is_ok result) (self.old.at + n) }
    {
        self.need(n, item)?;
        let from = self.at;
        let bytes = self.bytes;
        self.at = from + n;
        Ok(&bytes[from..from + n])
    }

    // The next number.
    pub fn number<N: Number>(&mut self, item: Item) -> Result<N, ReadFault>
        ensures answer { answered read_told result ≡ passes (N.number_at self.old.bytes.now self.old.at) (there item self.old.bytes.now self.old.at N.SIZE) }
        ensures moved { Moved self.old self.new (is_ok result) (self.old.at + N.SIZE) }
    {
        self.need(N::SIZE, item)?;
        let number = N::number_at(self.bytes, self.at);
        self.at += N::SIZE;
        Ok(number)
    }

    // The next number as a count, at most this large.
    pub fn count<N: Number>(&mut self, most: N, item: Item) -> Result<N, ReadFault>
        ensures answer { answered read_told result ≡ passes (N.number_at self.old.bytes.now self.old.at) (there item self.old.bytes.now self.old.at N.SIZE ⨟ at_most item self.old.at (N.amount most) (N.amount (N.number_at self.old.bytes.now self.old.at))) }
        ensures moved { Moved self.old self.new (is_ok result) (self.old.at + N.SIZE) }
    {
        let mut next = *self;
        let number = next.number::<N>(item)?;
        if number > most {
            return Err(ReadFault::TooMany { item, at: self.at });
        }
        *self = next;
        Ok(number)
    }

    // Whether the file ends here.
    pub fn end(&self) -> Result<(), ReadFault>
        ensures { answered read_told result ≡ passes tt (ends_at self.now.bytes.now self.now.at) }
    {
        let at = self.at;
        if at < self.bytes.len() {
            return Err(ReadFault::LeftOver { at });
        }
        Ok(())
    }
}
