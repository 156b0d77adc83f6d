// A table with places for 64 steps, of which the first `count` stand.
ghost use Rattle.std.specs.Prelude.{◌≡◌, ◌≤◌};
ghost use Rattle.arrayvec.specs.ArrayVec.{array_vec_len};

use crate::record::Record;
use arrayvec::ArrayVec;

mod comparing;
mod going_back;
mod lending;
mod methods;

// All 64 places, one record each, in a struct without invariants, so that one of them can be lent.
#[derive(Drop)]
struct Places {
    records: ArrayVec<Record, 64>,
}

// Kept: a count beside the places, since a vector that is cut short writes over each record that goes, and going back
// is to write none.
#[derive(Drop)]
pub struct Table {
    places: Places,
    count: usize,
    ghost all: { array_vec_len places.records ≡ 64 },
    ghost room: { count ≤ 64 },
}
