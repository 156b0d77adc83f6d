// The marks of a row that moves.
ghost use Rattle.std.specs.Prelude.{◌≡◌, nat_le};
ghost use Rattle.marks.specs.Words.{bit};
ghost use Rattle.rows.specs.Rows.{body_count};
ghost use Rattle.series.specs.Moved.{mark_in, moved};
ghost use Rattle.series.specs.Positions.{place};

use crate::movement::Movement;
use rows::Row;

// Where a mark stands in a row: it is the head, or body mark k.
// Kept: no Option, since the head is a mark too, and not the lack of one.
#[derive(Clone, Copy)]
pub(crate) enum Position {
    Head,
    Body(usize),
}

// A row, and what moves in it.
#[derive(Clone, Copy)]
pub(crate) struct MovingRow<'a> {
    pub row: Row<'a>,
    pub movement: Movement,
}

impl MovingRow<'_> {
    // Whether the row has a mark at the position.
    pub(crate) fn has(&self, position: Position) -> bool
        ensures { result ≡ nat_le (place position) (body_count self.now.row.bytes.now) }
    {
        match position {
            Position::Head => true,
            Position::Body(k) => k < self.row.body_count(),
        }
    }

    // Whether the mark at the position moves.
    pub(crate) fn moves(&self, position: Position) -> bool
        ensures { result ≡ bit self.now.movement.moving (place position) }
    {
        let moving = self.movement.moving;
        match position {
            Position::Head => moving & 1 == 1,
            Position::Body(k) => k < 15 && moving >> (k + 1) & 1 == 1,
        }
    }

    // The mark of the row at the position.
    fn mark(&self, position: Position) -> u16
        ensures { result ≡ mark_in self.now.row.bytes.now (place position) }
    {
        match position {
            Position::Head => self.row.head(),
            Position::Body(k) => self.row.mark(k),
        }
    }

    // The mark of rule n at the position.
    pub(crate) fn moved(&self, n: u8, position: Position) -> u32
        ensures { result ≡ moved self.now.row.bytes.now self.now.movement n (place position) }
    {
        let mark = u32::from(self.mark(position));
        if self.moves(position) {
            mark + 8 * u32::from(self.movement.width) * u32::from(n)
        } else {
            mark
        }
    }
}
