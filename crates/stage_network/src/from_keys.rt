// A sweep that begins at any stage, with keys laid flat, and the sum over such keys.
ghost use Rattle.std.specs.Prelude.{◌≡◌, ◌+◌, ◌≤◌, List, [], ◌∷◌, length, OnOk, IfOk};
ghost use Rattle.weights.specs.declared.tails.Tail.{Tail};
ghost use Rattle.node_pool.specs.Nodes.{Node, node, weighted};
ghost use Rattle.node_pool.specs.PoolSteps.{nodes_of};
ghost use Rattle.networks.specs.Completions.{extreme_weight, total_weight};
ghost use Rattle.stage_network.specs.FromKeys.{AreStarts, course_from};
ghost use Rattle.networks.specs.EachTail.{sum_for};
ghost use Rattle.networks.specs.Shifts.{IsShifting};
ghost use Rattle.stage_network.specs.SweepSteps.{IsSweeping, closed_at, counted, staying};

use crate::nodes::StageNodes;
use crate::rooms::RoomPool;
use crate::row_sweeps::RowSweep;
use crate::settling::settle;
use crate::stage_arcs::StageArcs;
use crate::stops::Stop;
use crate::sweep::Sweep;
use crate::widths::{Width, width_of};
use networks::{Kept, Roomed, Stages, TailSums, behind, front, only};
use node_pool::key_at;
use node_runs::RunPool;
use std::alloc::Global;
use weights::{Count, Narrow, NoMemory, Tail, Wide};

// Puts one partial alone into a pool.
fn put_one<C: Count>(partial: &[i128], weight: u128, pool: &mut RunPool<C>) -> Result<(), NoMemory>
    requires wide { length partial.now ≡ pool.old.width }
    requires limit { weight ≤ C.LIMIT }
    ensures width { OnOk result (pool.new.width ≡ pool.old.width) }
    ensures nodes { OnOk result (pool.new.nodes ≡ node partial.now weight ∷ []) }
{
    match C::of(weight) {
        Some(count) => pool.put_one(partial, count)?,
        None => unreachable!(),
    }
    Ok(())
}

// Settles keys of a stage, one after another.
fn settle_keys<C: Count, S: Roomed>(
    stages: &S,
    stage: usize,
    keep: Kept,
    keys: &[i128],
    weights: &[u128],
    pool: &mut RunPool<C>,
    kept: &mut StageNodes<C>,
) -> Result<TailSums, NoMemory>
    requires starts { AreStarts (S.Stages.network stages.now) stage keys.now weights.now }
    requires limit { let n = S.Stages.network stages.now in
        weighted (total_weight n stage) (nodes_of n.width keys.now weights.now) ≤ C.LIMIT }
    requires wide { S.room_width stages.now + pool.old.width ≡ (S.Stages.network stages.now).width }
    requires here { kept.old.room_width ≡ S.room_width stages.now }
    requires deep { kept.old.width ≡ (S.Stages.network stages.now).width }
    requires empty { kept.old.nodes ≡ [] }
    ensures pool { OnOk result (pool.new.width ≡ pool.old.width) }
    ensures here { OnOk result (kept.new.room_width ≡ S.room_width stages.now) }
    ensures deep { OnOk result (kept.new.width ≡ (S.Stages.network stages.now).width) }
    ensures nodes { let n = S.Stages.network stages.now in
        let all = nodes_of n.width keys.now weights.now in
        OnOk result (kept.new.nodes ≡ staying n keep stage all) }
    ensures sum { let n = S.Stages.network stages.now in
        let all = nodes_of n.width keys.now weights.now in
        IfOk result (λ sums. (t : Tail)
        → (sum_for sums t).sum ≡ weighted (closed_at n keep t stage) all) }
    ensures opened { let n = S.Stages.network stages.now in
        let all = nodes_of n.width keys.now weights.now in
        IfOk result (λ sums. (t : Tail)
        → (sum_for sums t).opened ≡ counted n keep t stage all) }
{
    let _count = stages.stages();
    let width = stages.room_width();
    let key_width = stages.width();
    let mut sums = TailSums::none();
    for i in 0..weights.len() {
        let key = key_at(key_width, keys, i);
        put_one(behind(key, width), weights[i], pool)?;
        sums = settle(stages, stage, keep, pool, front(key, width), sums, kept)?;
    }
    Ok(sums)
}

impl<C: Count> Sweep<C> {
    /// A sweep that stands at a stage with these keys of it, which lie one after another, and
    /// their weights: the first of its nodes are those of them that it keeps.
    pub fn from_keys<S: Roomed>(
        alloc: Global,
        stages: &S,
        keep: Kept,
        stage: usize,
        keys: &[i128],
        weights: &[u128],
    ) -> Result<Sweep<C>, NoMemory>
        requires starts { AreStarts (S.Stages.network stages.now) stage keys.now weights.now }
        requires limit { let n = S.Stages.network stages.now in
            weighted (total_weight n stage) (nodes_of n.width keys.now weights.now) ≤ C.LIMIT }
        ensures sweeping { let n = S.Stages.network stages.now in
            IfOk result (IsSweeping n (S.room_width stages.now) (S.step_width stages.now) C.LIMIT
            (course_from n keep stage keys.now weights.now)) }
        ensures stage { IfOk result (λ sweep. sweep.stage ≡ stage) }
    {
        let _count = stages.stages();
        let _each = weights.len();
        let width = stages.room_width();
        let partial_width = stages.width() - width;
        let mut pool = RoomPool::<C>::new(alloc, stages)?;
        let arcs = StageArcs::new(alloc, stages)?;
        let mut nodes = StageNodes::<C>::new(alloc, width, partial_width);
        let sums = settle_keys(
            stages,
            stage,
            keep,
            keys,
            weights,
            &mut pool.partials,
            &mut nodes,
        )?;
        Ok(Sweep {
            keep,
            stage,
            sums,
            nodes,
            ahead: StageNodes::new(alloc, width, partial_width),
            arcs,
            pool,
        })
    }
}

// The summed weight of the completions of keys, each times the key's own.
fn total_from<S: Stages>(stages: &S, stage: usize, keys: &[i128], weights: &[u128]) -> u128
    requires { AreStarts (S.network stages.now) stage keys.now weights.now }
    ensures { let n = S.network stages.now in
        result ≡ weighted (total_weight n stage) (nodes_of n.width keys.now weights.now) }
{
    let _count = stages.stages();
    let width = stages.width();
    let mut total = 0u128;
    for i in 0..weights.len() {
        total += weights[i] * stages.rest(stage, key_at(width, keys, i));
    }
    total
}

// The sum over keys by rows of cells.
fn sum_by_rows<C: Count, S: Roomed>(
    alloc: Global,
    stages: &S,
    tail: Tail,
    stage: usize,
    keys: &[i128],
    weights: &[u128],
) -> Result<u128, Stop>
    ghost nodes: { List Node }
    requires shifting { let n = S.Stages.network stages.now in
        let width = S.room_width stages.now in
        IsShifting n width (S.step_width stages.now) (S.step_of stages.now) }
    requires laid { let n = S.Stages.network stages.now in
        nodes_of n.width keys.now weights.now ≡ nodes }
    requires starts { AreStarts (S.Stages.network stages.now) stage keys.now weights.now }
    requires limit { let n = S.Stages.network stages.now in
        weighted (total_weight n stage) nodes ≤ C.LIMIT }
    ensures { let n = S.Stages.network stages.now in
        IfOk result (λ sum. sum ≡ weighted (extreme_weight n tail stage) nodes) }
{
    let count = stages.stages();
    let keep = Kept::Open(only(tail));
    let mut sweep = RowSweep::<C>::from_keys(alloc, stages, keep, stage, keys, weights)?;
    sweep.advance_to(stages, count)?;
    Ok(sweep.sums.of(tail).sum)
}

// The sum over keys in counts of one width: by rows of cells where these serve and find memory.
fn sum_in<C: Count, S: Roomed>(
    alloc: Global,
    stages: &S,
    tail: Tail,
    stage: usize,
    keys: &[i128],
    weights: &[u128],
) -> Result<u128, NoMemory>
    ghost nodes: { List Node }
    requires laid { let n = S.Stages.network stages.now in
        nodes_of n.width keys.now weights.now ≡ nodes }
    requires starts { AreStarts (S.Stages.network stages.now) stage keys.now weights.now }
    requires limit { let n = S.Stages.network stages.now in
        weighted (total_weight n stage) nodes ≤ C.LIMIT }
    ensures { let n = S.Stages.network stages.now in
        IfOk result (λ sum. sum ≡ weighted (extreme_weight n tail stage) nodes) }
{
    if stages.is_shift() {
        if let Ok(sum) = sum_by_rows::<C, S>(alloc, stages, tail, stage, keys, weights) {
            return Ok(sum);
        }
    }
    let count = stages.stages();
    let keep = Kept::Open(only(tail));
    let mut sweep = Sweep::<C>::from_keys(alloc, stages, keep, stage, keys, weights)?;
    sweep.advance_to(stages, count)?;
    Ok(sweep.sums.of(tail).sum)
}

/// The sum, over distinct keys that are reached at a stage and lie one after another, of the key's
/// weight times the summed weight of its extreme completions.
pub fn sum_from_keys<S: Roomed>(
    alloc: Global,
    stages: &S,
    tail: Tail,
    stage: usize,
    keys: &[i128],
    weights: &[u128],
) -> Result<u128, NoMemory>
    requires { AreStarts (S.Stages.network stages.now) stage keys.now weights.now }
    ensures { let n = S.Stages.network stages.now in
        IfOk result (λ sum. sum
        ≡ weighted (extreme_weight n tail stage) (nodes_of n.width keys.now weights.now)) }
{
    match width_of(total_from(stages, stage, keys, weights)) {
        Width::Narrow => sum_in::<Narrow, S>(alloc, stages, tail, stage, keys, weights),
        Width::Wide => sum_in::<Wide, S>(alloc, stages, tail, stage, keys, weights),
    }
}
