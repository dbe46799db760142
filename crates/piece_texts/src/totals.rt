// The sums of all pieces, tail by tail.
ghost use Rattle.std.specs.Prelude.{◌≡◌, ◌<◌, ◌≤◌, ◌+◌, length, SomeIff};
ghost use Rattle.piece_texts.specs.Merges.{differs, tail_differs, closed_of, sum_of};
ghost use Rattle.piece_texts.specs.TotalSteps.{sums_with, AllWithin, TotalsGive};

use crate::piece::{Piece, PieceSum, Pieces};

// A sum for each tail, 0 where it is not asked.
#[derive(Clone, Copy)]
pub(crate) struct TailTotals {
    pub less: u128,
    pub greater: u128,
    pub two: u128,
}

fn closed_of(tail: Option<PieceSum>) -> u128
    ensures { result ≡ closed_of tail }
{
    match tail {
        Some(sums) => sums.closed,
        None => 0,
    }
}

fn sum_of(tail: Option<PieceSum>) -> u128
    ensures { result ≡ sum_of tail }
{
    match tail {
        Some(sums) => sums.sum,
        None => 0,
    }
}

fn tail_differs(one: Option<PieceSum>, other: Option<PieceSum>) -> bool
    ensures { result ≡ tail_differs one other }
{
    match (one, other) {
        (None, None) => false,
        (Some(one), Some(other)) => other.closed != one.closed,
        _ => true,
    }
}

// Whether the heads of two pieces, their tails or their closed sums differ.
fn differs(one: &Piece, piece: &Piece) -> bool
    ensures { result ≡ differs one.now piece.now }
{
    piece.head.as_slice() != one.head.as_slice()
        || tail_differs(one.less, piece.less)
        || tail_differs(one.greater, piece.greater)
        || tail_differs(one.two, piece.two)
}

// A sum with that of a piece's tail, where it does not pass the total.
fn with_sum(sum: u128, tail: Option<PieceSum>, total: u128) -> Option<u128>
    ensures { SomeIff result (sum + sum_of tail ≤ total) (sum + sum_of tail) }
{
    match sum.checked_add(sum_of(tail)) {
        Some(sum) if sum <= total => Some(sum),
        _ => None,
    }
}

// The sums with those of a piece, where none passes the total.
fn with_piece(sums: TailTotals, piece: &Piece, total: u128) -> Option<TailTotals>
    ensures { SomeIff result (AllWithin total (sums_with sums piece.now))
        (sums_with sums piece.now) }
{
    Some(TailTotals {
        less: with_sum(sums.less, piece.less, total)?,
        greater: with_sum(sums.greater, piece.greater, total)?,
        two: with_sum(sums.two, piece.two, total)?,
    })
}

// The closed sums and the sums of all pieces, or the place of the first piece that differs from
// the first, or with which a sum passes the total.
pub(crate) fn totals(pieces: &Pieces) -> Result<TailTotals, usize>
    requires { 0 < length pieces.now }
    ensures { TotalsGive pieces.now result }
{
    let one = pieces.at(0);
    let mut sums = TailTotals {
        less: closed_of(one.less),
        greater: closed_of(one.greater),
        two: closed_of(one.two),
    };
    for i in 0..pieces.len() {
        let piece = pieces.at(i);
        if differs(one, piece) {
            return Err(i);
        }
        match with_piece(sums, piece, one.total) {
            Some(more) => sums = more,
            None => return Err(i),
        }
    }
    Ok(sums)
}
