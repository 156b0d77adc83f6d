// The row form of a rule, over its bytes. Past their end all bytes are zero.
ghost use Rattle.std.specs.Prelude.{◌≡◌, ◌<◌};
ghost use Rattle.rows.specs.Rows.{head, required_count, barred_count, body_count, mark_at};

use reading::Number;

mod check;

pub use check::check_row;

#[derive(Clone, Copy)]
pub struct Row<'a> {
    bytes: &'a [u8],
}

impl<'a> Row<'a> {
    pub fn new(bytes: &'a [u8]) -> Row<'a>
        ensures { result.bytes.now ≡ bytes.now }
    {
        Row { bytes }
    }

    pub fn head(&self) -> u16
        ensures { result ≡ head self.now.bytes.now }
    {
        u16::number_at(self.bytes, 0)
    }

    // How many marks the row says that it requires.
    pub fn required(&self) -> u8
        ensures { result ≡ required_count self.now.bytes.now }
    {
        u8::number_at(self.bytes, 2)
    }

    // How many marks the row says that it bars.
    pub fn barred(&self) -> u8
        ensures { result ≡ barred_count self.now.bytes.now }
    {
        u8::number_at(self.bytes, 3)
    }

    // How many body marks the row says that it has.
    pub fn body_count(&self) -> usize
        ensures value { result ≡ body_count self.now.bytes.now }
        ensures low { result < 511 }
    {
        usize::from(self.required()) + usize::from(self.barred())
    }

    // The body mark k.
    pub fn mark(&self, k: usize) -> u16
        ensures { result ≡ mark_at self.now.bytes.now k }
    {
        if k < self.bytes.len() / 2 {
            u16::number_at(self.bytes, 4 + 2 * k)
        } else {
            0
        }
    }
}
