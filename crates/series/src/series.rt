// A series over the bytes of its row.
ghost use Rattle.std.specs.Prelude.{◌≡◌, true, not, ◌||◌, is_some, ◌==◌};
ghost use Rattle.series.specs.Checks.{series_check};

use crate::moved::MovingRow;

mod methods;

// There is no rule, or the check passes.
#[derive(Clone, Copy)]
pub struct Series<'a> {
    moving_row: MovingRow<'a>,
    ghost checked: { (moving_row.movement.count == 0 || not (is_some (series_check moving_row.row.bytes.now moving_row.movement))) ≡ true },
}
