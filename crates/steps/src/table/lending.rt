// The places of a table, of which one can be lent to be filled.
ghost use Rattle.std.specs.Prelude.{◌≡◌, ◌<◌, ◌↔◌, IsSome};
ghost use Rattle.std.specs.Borrow.{sem};
ghost use Rattle.arrayvec.specs.ArrayVec.{array_vec_len};
ghost use Rattle.steps.specs.Lending.{LendsRecord};

use crate::record::Record;
use crate::table::Places;
use arrayvec::ArrayVec;

impl Places {
    // Each place has an empty record.
    pub(crate) fn new() -> Places
        ensures { array_vec_len result.records ≡ 64 }
    {
        Places {
            records: ArrayVec::from([Record::default(); 64]),
        }
    }

    // Lends the record at this place, to be filled, if there is one.
    pub(crate) fn record_mut(&mut self, at: usize) -> Option<&mut Record>
        ensures* writes_back { sem 𝓛 (LendsRecord self.entry at result) }
        ensures within { IsSome result ↔ (at < array_vec_len self.old.records) }
    {
        self.records.get_mut(at)
    }
}
