// The pieces of one run, put together.
ghost use Rattle.std.specs.Prelude.{◌<◌, length, IfOk};
ghost use Rattle.piece_texts.specs.Merges.{MergeGives};
ghost use Rattle.pieces.specs.Undivided.{AreOfOneRun, IsUndivided, OkOrNoMemory};

use piece_texts::{MergeFault, Merged, Pieces};
use std::alloc::Global;

/// One piece of each part of a run, in any order, put together: of each asked tail the closed sum
/// and the sums of all pieces, which is the number of the run that is not divided where these are
/// the sums of its parts.
///
/// # Errors
/// As `piece_texts::merge`: the first fault of the pieces, or `NoMemory` where memory runs out.
/// Pieces of one run have no fault.
pub fn merge(alloc: Global, pieces: &Pieces) -> Result<Merged, MergeFault>
    requires { 0 < length pieces.now }
    ensures gives { MergeGives pieces.now result }
    ensures merges { AreOfOneRun pieces.now → OkOrNoMemory result }
    ensures undivided { IfOk result (IsUndivided pieces.now) }
{
    let _count = pieces.len();
    piece_texts::merge(alloc, pieces)
}
