// A book of any type without the rules that are set aside.
ghost use Rattle.std.specs.Prelude.{◌≡◌, ◌≤◌, true, length};
ghost use Rattle.suspension.specs.Rest.{rising_from};

mod methods;

// The numbers are those of the rules that are set aside.
#[derive(Drop)]
pub struct Suspension<'a, B> {
    book: B,
    numbers: &'a [u16],
    ghost few: { length numbers.now ≤ 16 },
    ghost rising: { rising_from 0 numbers.now ≡ true },
}
