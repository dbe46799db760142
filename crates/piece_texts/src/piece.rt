// A part of a divided run, and many of them.
use std::marker::Model;
use weights::Bytes;

/// What a part knows of a tail: the weight of the extreme rearrangements that were found where the
/// run was divided, which each part has, and of those behind it that are the part's own. Both are
/// at most [`weights::MAX`].
#[derive(Clone, Copy, Debug, PartialEq, Eq)]
pub struct PieceSum {
    pub closed: u128,
    pub sum: u128,
}

/// A part of a divided run: the name of the run in 64 lower-case hexadecimal digits, the number of
/// parts (1 to 64), which of them it is (from 0), the lines of the report up to that of the total,
/// the total (1 to [`weights::MAX`]), and the sums of each tail that is asked, at least one.
#[derive(Drop)]
pub struct Piece {
    pub name: [u8; 64],
    pub parts: u64,
    pub part: u64,
    pub head: Bytes,
    pub total: u128,
    pub less: Option<PieceSum>,
    pub greater: Option<PieceSum>,
    pub two: Option<PieceSum>,
}

/// Pieces in the order in which they were read, each as [`Piece`] says.
#[derive(Drop)]
pub struct Pieces {
    items: Vec<Piece>,
}

impl Model for Pieces {
    ghost use Rattle.std.specs.Prelude as words;
    ghost use Rattle.std.specs.List.{AllByRecursion};
    ghost use Rattle.piece_texts.specs.PieceTexts.{IsPiece};
    ghost use Rattle.piece_texts.specs.declared.piece.Piece as declared;

    ghost Value = { words.List declared.Piece };

    ghost view = { λ a. a.items.items };

    ghost invariant = { λ a. AllByRecursion IsPiece a.items.items };
}

impl Pieces {
    ghost use Rattle.std.specs.Prelude.{◌≡◌, ◌<◌, length};
    ghost use Rattle.std.specs.List.{AllByRecursion};
    ghost use Rattle.piece_texts.specs.PieceTexts.{IsPiece};
    ghost use Rattle.piece_texts.specs.Places.{piece_at};

    // The pieces of a list.
    pub(crate) fn of(items: Vec<Piece>) -> Pieces
        requires { AllByRecursion IsPiece items.items }
        ensures { result ≡ items.items }
    {
        Pieces { items }
    }

    /// How many there are.
    pub fn len(&self) -> usize
        ensures count { result ≡ length self.now }
        ensures formed { AllByRecursion IsPiece self.now }
    {
        self.items.len()
    }

    /// The piece at a place, counted from 0.
    pub fn at(&self, i: usize) -> &Piece
        requires { i < length self.now }
        ensures { result.now ≡ piece_at self.now i }
    {
        &self.items[i]
    }
}
