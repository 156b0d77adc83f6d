// A walk over names.
ghost use Rattle.std.specs.Prelude.{◌≤◌, length};
ghost use Rattle.bookcheck.specs.Layout.{name_at};

mod methods;

// The names that are left, with the first one's length byte in front.
#[derive(Clone, Copy, Drop)]
pub struct NameIter<'a> {
    rest: &'a [u8],
    left: u8,
    ghost within: { name_at rest.now 0 left ≤ length rest.now },
}
