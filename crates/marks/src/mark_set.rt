// A set of marks as sixteen words of 64 bits: mark m is bit m mod 64 of word m div 64.
ghost use Rattle.std.specs.Prelude.{◌≡◌, ℕ, ◌<◌, ◌^◌, length, slice_index};

mod methods;

#[derive(Clone, Copy, PartialEq, Eq, Debug)]
pub struct MarkSet {
    words: [u64; 16],
    ghost sixteen: { length words ≡ 16 },
    ghost fits: { (i : ℕ) → slice_index words i < 2 ^ 64 },
}
