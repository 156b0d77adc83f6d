// The check of a series.
ghost use Rattle.std.specs.Prelude.{◌≡◌, ◌-◌, ◌&&◌, nat_lt};
ghost use Rattle.refusals.specs.Telling.{answered};
ghost use Rattle.refusals.specs.Checks.{passes};
ghost use Rattle.series.specs.Checks.{position_check, movement_check, series_check};
ghost use Rattle.series.specs.Faults.{series_told};
ghost use Rattle.series.specs.Moved.{moved};
ghost use Rattle.series.specs.Positions.{place};

use crate::fault::SeriesFault;
use crate::moved::{MovingRow, Position};
use crate::movement::Movement;
use reading::Reader;
use refusals::{Item, Section};
use rows::{Row, check_row};

impl MovingRow<'_> {
    // Whether the mark at the position is above 1,023 in the last rule. It is then the highest.
    fn ends_high(&self, position: Position) -> bool
        ensures { result ≡ (nat_lt 0 self.now.movement.count && nat_lt 1023 (moved self.now.row.bytes.now self.now.movement (self.now.movement.count - 1) (place position))) }
    {
        let count = self.movement.count;
        count > 0 && self.moved(count - 1, position) > 1023
    }

    // Whether the mark at the position may move: where the row has it, and it stays below 1,024 in all rules.
    #[tactic(auto, using(crate::proofs::Moving::still, crate::proofs::Moving::unused, crate::proofs::Moving::ends_low, crate::proofs::Moving::ends_high))]
    fn check_position(&self, position: Position) -> Result<(), SeriesFault>
        ensures { answered series_told result ≡ passes tt (position_check self.now.row.bytes.now self.now.movement (place position)) }
    {
        if !self.moves(position) {
            return Ok(());
        }
        if self.has(position) && !self.ends_high(position) {
            Ok(())
        } else {
            Err(SeriesFault::Movement)
        }
    }

    // Whether the width, the count and the movement are in bounds.
    fn check_movement(&self) -> Result<(), SeriesFault>
        ensures { answered series_told result ≡ passes tt (movement_check self.now.row.bytes.now self.now.movement) }
    {
        if self.movement.width > 127 || self.movement.count > 128 {
            return Err(SeriesFault::Movement);
        }
        self.check_position(Position::Head)?;
        for k in 0..15 {
            self.check_position(Position::Body(k))?;
        }
        Ok(())
    }
}

// Whether the row and the movement are those of a series.
pub fn check_series(row: &[u8], movement: Movement) -> Result<(), SeriesFault>
    ensures { answered series_told result ≡ passes tt (series_check row.now movement) }
{
    if row.len() > 32 {
        return Err(SeriesFault::LeftOver);
    }
    check_row(&mut Reader::new(row), Item::of(Section::Series, 0))?;
    let marks = MovingRow {
        row: Row::new(row),
        movement,
    };
    marks.check_movement()
}
