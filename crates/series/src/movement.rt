// How the rules of a series come from its row.
#[derive(Clone, Copy, PartialEq, Eq, Debug)]
pub struct Movement {
    // How many instances a moving mark goes up from one rule to the next.
    pub width: u8,
    // How many rules there are.
    pub count: u8,
    // Which marks move, a bit for each: bit 0 for the head, bit k + 1 for body mark k.
    pub moving: u16,
}
