// The first piece of another run, the first that is doubled, and the first part that is missing.
ghost use Rattle.std.specs.Prelude.{◌≡◌, ◌<◌, ◌≤◌, length, take};
ghost use Rattle.piece_texts.specs.Places.{FoundFirst};
ghost use Rattle.piece_texts.specs.Merges.{is_foreign, foreign_at, doubled_at, lacks_piece, occurs, parts_of};

use crate::piece::{Piece, Pieces};

fn is_foreign(one: &Piece, piece: &Piece) -> bool
    ensures { result ≡ is_foreign one.now piece.now }
{
    piece.name != one.name || piece.parts != one.parts
}

// The first piece of another run than the first, or of another number of parts.
pub(crate) fn first_foreign(pieces: &Pieces) -> Option<usize>
    requires { 0 < length pieces.now }
    ensures { FoundFirst (foreign_at pieces.now) (length pieces.now) result }
{
    for i in 0..pieces.len() {
        if is_foreign(pieces.at(0), pieces.at(i)) {
            return Some(i);
        }
    }
    None
}

// Whether a part occurs among the first pieces.
fn occurs_before(pieces: &Pieces, end: usize, part: u64) -> bool
    requires { end ≤ length pieces.now }
    ensures { result ≡ occurs part (take end (parts_of pieces.now)) }
{
    for i in 0..end {
        if pieces.at(i).part == part {
            return true;
        }
    }
    false
}

// The first piece whose part occurred before.
pub(crate) fn first_doubled(pieces: &Pieces) -> Option<usize>
    ensures { FoundFirst (doubled_at pieces.now) (length pieces.now) result }
{
    for i in 0..pieces.len() {
        if occurs_before(pieces, i, pieces.at(i).part) {
            return Some(i);
        }
    }
    None
}

// The least part that does not occur.
pub(crate) fn first_missing(pieces: &Pieces, parts: u64) -> Option<u64>
    ensures { FoundFirst (lacks_piece pieces.now) parts result }
{
    for part in 0..parts {
        if !occurs_before(pieces, pieces.len(), part) {
            return Some(part);
        }
    }
    None
}
