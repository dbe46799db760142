// The tail sums of a network where few keys are open at each of its stages, so that it is quicker
// to follow these than to draw subjects.
ghost use Rattle.std.specs.Prelude.{◌≡◌, ◌≤◌, true, IfOk, IfSome};
ghost use Rattle.weights.specs.declared.tails.Tail.{Tail};
ghost use Rattle.networks.specs.Asked.{asks};
ghost use Rattle.networks.specs.Completions.{extreme_weight, total_weight};
ghost use Rattle.networks.specs.EachTail.{sum_for};
ghost use Rattle.node_pool.specs.Nodes.{weighted};
ghost use Rattle.node_pool.specs.PoolSteps.{nodes_of};
ghost use Rattle.stage_network.specs.FromKeys.{AreStarts};
ghost use Rattle.stage_network.specs.SweepSteps.{Course};

use networks::{Kept, Roomed, Stages, TailSums, only};
use stage_network::{Sweep, Width, row_sums, total_of, width_of};
use std::alloc::Global;
use weights::{Count, Narrow, NoMemory, Tail, Tails, Wide};

// Whether so many keys are fewer than an eighth of the root of a number.
fn are_few(keys: usize, number: u128) -> bool {
    let square = keys as u128 * keys as u128;
    square.saturating_mul(64) < number
}

// The sums in counts of one width: by rows of cells where these serve and find memory, or by a
// sweep; None where that comes to many keys.
fn few_in<C: Count, S: Roomed>(
    alloc: Global,
    stages: &S,
    tails: Tails,
    total: u128,
) -> Result<Option<TailSums>, NoMemory>
    requires limit { let n = S.Stages.network stages.now in total_weight n 0 n.first ≤ C.LIMIT }
    ensures { let n = S.Stages.network stages.now in
        IfOk result (λ some. IfSome some (λ all. (t : Tail) → asks tails t ≡ true
        → (sum_for all t).sum ≡ extreme_weight n t 0 n.first)) }
{
    let count = stages.stages();
    if stages.is_shift() {
        if let Ok(Some(sums)) = row_sums::<C, S>(alloc, stages, tails) {
            return Ok(Some(sums));
        }
    }
    let mut sweep = Sweep::<C>::new(alloc, stages, Kept::Open(tails))?;
    while sweep.stage < count && are_few(sweep.nodes.len(), total) {
        sweep.advance(stages)?;
    }
    if sweep.stage < count {
        return Ok(None);
    }
    Ok(Some(sweep.sums))
}

/// The tail sums of the asked tails; None where at some stage the open keys are more than an eighth
/// of the root of the number of completions.
pub(crate) fn few_sums<S: Roomed>(
    alloc: Global,
    stages: &S,
    tails: Tails,
) -> Result<Option<TailSums>, NoMemory>
    ensures { let n = S.Stages.network stages.now in
        IfOk result (λ some. IfSome some (λ all. (t : Tail) → asks tails t ≡ true
        → (sum_for all t).sum ≡ extreme_weight n t 0 n.first)) }
{
    let _lawful = stages.stages();
    let total = total_of(alloc, stages)?;
    match width_of(total) {
        Width::Narrow => few_in::<Narrow, S>(alloc, stages, tails, total),
        Width::Wide => few_in::<Wide, S>(alloc, stages, tails, total),
    }
}

// The sum over keys, on from where they stand; None where that comes to many keys.
fn onward_in<C: Count, S: Roomed>(
    alloc: Global,
    stages: &S,
    tail: Tail,
    stage: usize,
    keys: &[i128],
    weights: &[u128],
    number: u128,
) -> Result<Option<u128>, NoMemory>
    ghost from: { Course }
    requires begins { from.stage ≡ stage }
    requires laid { let n = S.Stages.network stages.now in
        nodes_of n.width keys.now weights.now ≡ from.nodes }
    requires starts { AreStarts (S.Stages.network stages.now) stage keys.now weights.now }
    requires limit { let n = S.Stages.network stages.now in
        weighted (total_weight n stage) (nodes_of n.width keys.now weights.now) ≤ C.LIMIT }
    ensures { let n = S.Stages.network stages.now in
        IfOk result (λ some. IfSome some (λ sum.
        sum ≡ weighted (extreme_weight n tail from.stage) from.nodes)) }
{
    let count = stages.stages();
    let keep = Kept::Open(only(tail));
    let mut sweep = Sweep::<C>::from_keys(alloc, stages, keep, stage, keys, weights)?;
    while sweep.stage < count && are_few(sweep.nodes.len(), number) {
        sweep.advance(stages)?;
    }
    if sweep.stage == count {
        Ok(Some(sweep.sums.of(tail).sum))
    } else {
        Ok(None)
    }
}

/// The sum, over distinct keys that are reached at a stage and lie one after another, of the key's
/// weight times the summed weight of its extreme completions; None where at some stage the open
/// keys are more than an eighth of the root of a number.
pub(crate) fn few_sum_onward<S: Roomed>(
    alloc: Global,
    stages: &S,
    tail: Tail,
    stage: usize,
    keys: &[i128],
    weights: &[u128],
    number: u128,
) -> Result<Option<u128>, NoMemory>
    requires { AreStarts (S.Stages.network stages.now) stage keys.now weights.now }
    ensures { let n = S.Stages.network stages.now in
        IfOk result (λ some. IfSome some (λ sum. sum
        ≡ weighted (extreme_weight n tail stage) (nodes_of n.width keys.now weights.now))) }
{
    onward_in::<Wide, S>(alloc, stages, tail, stage, keys, weights, number)
}
