// A network cut at a stage: the open keys there, and what was closed before them.
ghost use Rattle.std.specs.Prelude.{◌≡◌, ◌≤◌, IfOk};
ghost use Rattle.node_pool.specs.Nodes.{keys};
ghost use Rattle.networks.specs.Completions.{total_weight};
ghost use Rattle.pieces.specs.Cuts.{IsCountedCut, PartsAddUp, counted_nodes};

use crate::cuts::CountedCut;
use networks::{Kept, Roomed, Stages, only};
use stage_network::{Width, entries_of, laid_flat, sweep_to, total_of, width_of};
use std::alloc::Global;
use weights::{Count, Narrow, NoMemory, Tail, Wide};

// The cut in counts of one width.
fn cut_in<C: Count, S: Roomed>(
    alloc: Global,
    stages: &S,
    tail: Tail,
    at: usize,
) -> Result<CountedCut, NoMemory>
    requires within { at ≤ (S.Stages.network stages.now).count }
    requires limit { let n = S.Stages.network stages.now in total_weight n 0 n.first ≤ C.LIMIT }
    ensures at { IfOk result (λ cut. cut.at ≡ at) }
    ensures cut { IfOk result (IsCountedCut (S.Stages.network stages.now) tail) }
{
    let _lawful = stages.stages();
    let keep = Kept::Open(only(tail));
    let sweep = sweep_to::<C, S>(alloc, stages, keep, at)?;
    let mut entries = entries_of(alloc, &sweep.nodes)?;
    let flat = laid_flat(alloc, stages.width(), entries.as_mut_slice())?;
    Ok(CountedCut {
        at,
        closed: sweep.sums.of(tail).sum,
        keys: flat.keys,
        weights: flat.weights,
    })
}

// The cut in counts of the width that serves.
fn cut_by_width<S: Roomed>(
    alloc: Global,
    stages: &S,
    tail: Tail,
    at: usize,
) -> Result<CountedCut, NoMemory>
    requires { at ≤ (S.Stages.network stages.now).count }
    ensures at { IfOk result (λ cut. cut.at ≡ at) }
    ensures cut { IfOk result (IsCountedCut (S.Stages.network stages.now) tail) }
{
    let _lawful = stages.stages();
    let total = total_of(alloc, stages)?;
    match width_of(total) {
        Width::Narrow => cut_in::<Narrow, S>(alloc, stages, tail, at),
        Width::Wide => cut_in::<Wide, S>(alloc, stages, tail, at),
    }
}

/// The open keys of a stage that are reached through open keys alone, and what was closed at that
/// stage or before, of a network of rooms; [`crate::cut`] takes any network.
pub fn cut_by_rooms<S: Roomed>(
    alloc: Global,
    stages: &S,
    tail: Tail,
    at: usize,
) -> Result<CountedCut, NoMemory>
    requires { at ≤ (S.Stages.network stages.now).count }
    ensures at { IfOk result (λ cut. cut.at ≡ at) }
    ensures cut { IfOk result (IsCountedCut (S.Stages.network stages.now) tail) }
    ensures parts { let n = S.Stages.network stages.now in
        IfOk result (λ cut. PartsAddUp n tail at cut.closed (keys (counted_nodes n cut))) }
{
    let _lawful = stages.stages();
    let cut = cut_by_width(alloc, stages, tail, at)?;
    Ok(cut)
}
