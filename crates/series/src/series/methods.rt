// The questions that a book answers, from the row of a series.
ghost use Rattle.std.specs.Prelude.{◌≡◌};
ghost use Rattle.books.specs.Asked.{numbered};
ghost use Rattle.series.specs.Made.{made_rules, rules_of};
ghost use Rattle.series.specs.Moved.{mark_of};
ghost use Rattle.series.specs.Positions.{place};
ghost use Rattle.series.specs.Sound.{sound_series};

use crate::check::check_series;
use crate::moved::{MovingRow, Position};
use crate::movement::Movement;
use crate::series::Series;
use books::Book;
use marks::Mark;
use rows::Row;

impl<'a> Series<'a> {
    // The series, or one without rules where the check refuses it.
    #[tactic(auto, using(crate::proofs::Made::made_checked, crate::proofs::Made::made_is))]
    pub fn new(row: &'a [u8], movement: Movement) -> Series<'a>
        ensures { rules_of result ≡ made_rules row.now movement }
    {
        let count = check_series(row, movement).map_or(0, |()| movement.count);
        Series {
            moving_row: MovingRow {
                row: Row::new(row),
                movement: Movement { count, ..movement },
            },
        }
    }

    // The mark of rule n at the position, if there is one.
    #[tactic(auto, using(crate::proofs::Asked::low_at, crate::proofs::Asked::mark_is, marks::proofs::Making::made_mark))]
    fn mark(&self, n: usize, position: Position) -> Option<Mark>
        ensures { numbered result ≡ mark_of self.now.moving_row.row.bytes.now self.now.moving_row.movement n (place position) }
    {
        let n = u8::try_from(n).ok()?;
        if n >= self.moving_row.movement.count || !self.moving_row.has(position) {
            return None;
        }
        let number = u16::try_from(self.moving_row.moved(n, position)).ok()?;
        Mark::new(number)
    }
}

impl Book for Series<'_> {
    ghost rules = { rules_of };

    ghost sound = { λ s. sound_series s.moving_row.row.bytes.now s.moving_row.movement s.checked };

    #[tactic(auto, using(crate::proofs::Asked::size))]
    fn len(&self) -> usize {
        usize::from(self.moving_row.movement.count)
    }

    #[tactic(auto, using(crate::proofs::Asked::head_told))]
    fn head(&self, n: usize) -> Option<Mark> {
        self.mark(n, Position::Head)
    }

    #[tactic(auto, using(crate::proofs::Asked::counts_told, crate::proofs::Asked::size, books::proofs::Counted::counts_past))]
    fn counts(&self, n: usize) -> Option<(u8, u8)> {
        if n < self.len() {
            Some((self.moving_row.row.required(), self.moving_row.row.barred()))
        } else {
            None
        }
    }

    #[tactic(auto, using(crate::proofs::Asked::body_told))]
    fn body(&self, n: usize, k: usize) -> Option<Mark> {
        self.mark(n, Position::Body(k))
    }
}
