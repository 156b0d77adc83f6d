// The numbers that stand in a file.
ghost use Rattle.std.specs.Prelude.{◌≡◌, ℕ, List, Some, slice_index, refl};
ghost use Rattle.std.specs.Ordering.{nat_cmp};
ghost use Rattle.reading.specs.Reads.{pair};

pub trait Number: Copy + PartialOrd {
    // How many bytes such a number has.
    ghost SIZE: { ℕ };

    // The number at an offset of bytes.
    ghost number_at: { List ℕ → ℕ → Self };

    // How much it is.
    ghost amount: { Self → ℕ };

    const SIZE: usize;

    // The number at the offset, the high byte first. Past the end all bytes are zero.
    fn number_at(bytes: &[u8], at: usize) -> Self
        ensures { result ≡ number_at bytes.now at };

    // Numbers are in the order of how much they are.
    ghost ordered: { (x y : Self) → Self.partial_cmp x y ≡ Some (nat_cmp (amount x) (amount y)) };
}

impl Number for u8 {
    ghost SIZE = { 1 };

    ghost number_at = { slice_index };

    ghost amount = { λ n. n };

    ghost ordered = { λ x y. refl };

    const SIZE: usize = 1;

    fn number_at(bytes: &[u8], at: usize) -> u8 {
        bytes.get(at).copied().unwrap_or(0)
    }
}

impl Number for u16 {
    ghost SIZE = { 2 };

    ghost number_at = { pair };

    ghost amount = { λ n. n };

    ghost ordered = { λ x y. refl };

    const SIZE: usize = 2;

    fn number_at(bytes: &[u8], at: usize) -> u16 {
        if at < bytes.len() {
            u16::from_be_bytes([bytes[at], u8::number_at(bytes, at + 1)])
        } else {
            0
        }
    }
}
