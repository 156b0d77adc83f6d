// The first names of a book file, over its bytes: each is in order, and none of those before it.
ghost use Rattle.std.specs.Prelude.{◌≡◌, ◌≤◌, false, is_some, length};
ghost use Rattle.refusals.specs.Checks.{first_below};
ghost use Rattle.bookcheck.specs.Layout.{name_at};
ghost use Rattle.bookcheck.specs.Checks.{name_check};

mod check;
mod methods;

#[derive(Clone, Copy)]
pub struct NameTable<'a> {
    // Kept: a count beside the bytes, since names have different lengths and there is no heap here.
    bytes: &'a [u8],
    from: usize,
    count: u8,
    ghost within: { name_at bytes.now from count ≤ length bytes.now },
    ghost checked: { is_some (first_below count (name_check bytes.now from)) ≡ false },
}
