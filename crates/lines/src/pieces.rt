// A line in pieces. One that does not fit is refused, and the buffer is then as it was.
// Kept: bytes into a lent buffer, and no Display, since what `write!` writes is told of a String alone, and there is no
// heap here.
ghost use Rattle.std.specs.Prelude.{◌≡◌, ◌^◌, ◌<◌, length};
ghost use Rattle.lines.specs.Faults.{short_told};
ghost use Rattle.lines.specs.Text.{joined};
ghost use Rattle.lines.specs.Writing.{Writes};

use crate::fault::Short;

// How many bytes the pieces have together.
#[tactic(auto, using(crate::proofs::Joined::joined_length))]
fn joined_len(pieces: &[&[u8]]) -> usize
    requires { length (joined pieces.now) < 2 ^ 64 }
    ensures { result ≡ length (joined pieces.now) }
{
    pieces.iter().map(|piece| piece.len()).sum()
}

// Writes the pieces one after another, and answers how many bytes they have together.
#[tactic(auto, using(crate::proofs::Joined::joined_before))]
pub(crate) fn write_pieces(buffer: &mut [u8], pieces: &[&[u8]]) -> Result<usize, Short>
    requires { length (joined pieces.now) < 2 ^ 64 }
    ensures { Writes short_told (joined pieces.now) buffer.old buffer.new result }
{
    let needed = joined_len(pieces);
    if buffer.len() < needed {
        return Err(Short { needed });
    }
    // Kept: the offset is a sum of lengths; splitting the buffer at each piece is no plainer.
    let mut at = 0;
    for piece in pieces {
        buffer[at..at + piece.len()].copy_from_slice(piece);
        at += piece.len();
    }
    Ok(needed)
}
