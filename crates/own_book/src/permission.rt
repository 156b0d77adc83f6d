// A book of one rule: an act is enabled while a fact holds.
use marks::Instance;

mod methods;

#[derive(Clone, Copy)]
pub struct Permission {
    act: Instance,
    fact: Instance,
}
