// Pieces of one run put together again.
ghost use Rattle.std.specs.Prelude.{◌≡◌, ◌<◌, length, OnOk};
ghost use Rattle.piece_texts.specs.Merges.{MergeGives, AllAddUp, number_told};

use crate::comparing::{first_doubled, first_foreign, first_missing};
use crate::piece::{PieceSum, Pieces};
use crate::totals::totals;
use std::alloc::Global;
use thiserror::Error;
use weights::{Bytes, NoMemory};

/// What the pieces of a run come to: the lines of its report up to the total, the total, and of
/// each tail that is asked its number, which is the numerator where the pieces are the parts of one
/// run.
#[derive(Drop)]
pub struct Merged {
    pub head: Bytes,
    pub total: u128,
    pub less: Option<u128>,
    pub greater: Option<u128>,
    pub two: Option<u128>,
}

/// Why pieces are not put together, in the order in which it is told. Pieces count from 1, and
/// parts from 0.
#[derive(Clone, Copy, Debug, PartialEq, Eq, Error)]
pub enum MergeFault {
    /// The first piece of another run than piece 1, or of another number of parts.
    #[error("foreign piece {0}")]
    Foreign(u64),
    /// The first piece whose part occurred before.
    #[error("doubled piece {0}")]
    Doubled(u64),
    /// The least part that does not occur.
    #[error("missing part {0}")]
    Missing(u64),
    /// The first piece whose head, asked tails or closed sums differ from those of piece 1, or with
    /// which a tail's closed sum and the sums so far pass the total.
    #[error("unequal piece {0}")]
    Unequal(u64),
    /// Memory ran out.
    #[error("no memory")]
    NoMemory,
}

// A tail's number, where it is asked.
fn number_of(tail: Option<PieceSum>, sum: u128) -> Option<u128>
    ensures { result ≡ number_told tail sum }
{
    match tail {
        Some(_) => Some(sum),
        None => None,
    }
}

/// The pieces of a run, each part once and in any order, put together: of each tail that is asked,
/// the closed sum and the sums of all pieces, which are those of all parts.
///
/// # Errors
/// The first of these faults: `Foreign`, where a piece is of another run or of another number of
/// parts than piece 1; `Doubled`, where a part occurred before; `Missing`, where one does not
/// occur; `Unequal`, where a piece differs from piece 1 in what all pieces of a run share, or with
/// it a sum passes the total. Or else `NoMemory` where memory runs out.
pub fn merge(alloc: Global, pieces: &Pieces) -> Result<Merged, MergeFault>
    requires { 0 < length pieces.now }
    ensures gives { MergeGives pieces.now result }
    ensures parts { OnOk result (AllAddUp pieces.now) }
{
    let one = pieces.at(0);
    let _count = pieces.len();
    if let Some(i) = first_foreign(pieces) {
        return Err(MergeFault::Foreign(i as u64 + 1));
    }
    if let Some(i) = first_doubled(pieces) {
        return Err(MergeFault::Doubled(i as u64 + 1));
    }
    if let Some(part) = first_missing(pieces, one.parts) {
        return Err(MergeFault::Missing(part));
    }
    match totals(pieces) {
        Err(i) => Err(MergeFault::Unequal(i as u64 + 1)),
        Ok(sums) => {
            let mut head = Bytes::empty(alloc);
            if head.append(one.head.as_slice()).is_err() {
                return Err(MergeFault::NoMemory);
            }
            Ok(Merged {
                head,
                total: one.total,
                less: number_of(one.less, sums.less),
                greater: number_of(one.greater, sums.greater),
                two: number_of(one.two, sums.two),
            })
        }
    }
}
