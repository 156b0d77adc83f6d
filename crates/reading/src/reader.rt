// A place in the bytes of a file.
ghost use Rattle.std.specs.Prelude.{◌≤◌, length};

mod methods;

#[derive(Clone, Copy)]
pub struct Reader<'a> {
    bytes: &'a [u8],
    at: usize,
    ghost within: { at ≤ length bytes.now },
}
