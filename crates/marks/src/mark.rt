// A mark says one thing, its attribute, of one instance. Its number is 8 × instance + attribute.
ghost use Rattle.std.specs.Prelude.{◌<◌};

mod methods;

// What a mark says of its instance, numbered from 0 to 7 in this order.
#[derive(Clone, Copy, PartialEq, Eq, Debug)]
pub enum Attribute {
    Carried,
    Holds,
    Enabled,
    Triggered,
    Created,
    Ended,
    Violated,
    Breached,
}

// One ground fact, act, event or duty, by its number.
#[derive(Clone, Copy, PartialEq, Eq, PartialOrd, Ord, Debug)]
pub struct Instance {
    number: u8,
    ghost low: { number < 128 },
}

#[derive(Clone, Copy, PartialEq, Eq, PartialOrd, Ord, Debug)]
pub struct Mark {
    number: u16,
    ghost low: { number < 1024 },
}
