// The sums of the parts that the keys of a cut are given to.
ghost use Rattle.std.specs.Prelude.{◌≡◌, ◌*◌, ◌≤◌, true, length, OnOk, IfOk};
ghost use Rattle.node_pool.specs.Nodes.{keys, weighted};
ghost use Rattle.node_pool.specs.PoolSteps.{nodes_of};
ghost use Rattle.networks.specs.Completions.{extreme_weight};
ghost use Rattle.networks.specs.Follows.{AllFollow};
ghost use Rattle.networks.specs.Laws.{IsLawful};
ghost use Rattle.networks.specs.Written.{AreWritten};
ghost use Rattle.stage_network.specs.FromKeys.{AreStarts};
ghost use Rattle.piece_texts.specs.PieceTexts.{SumFits};
ghost use Rattle.pieces.specs.Cuts.{IsCountedCut, PiecesAddUp, counted_nodes};
ghost use Rattle.pieces.specs.Cuts.{owned_nodes, owned_sum, piece_sum};
ghost use Rattle.pieces.specs.Parting.{IsPartCut, dealt};

use crate::cuts::CountedCut;
use crate::cutting::cut_by_rooms;
use networks::{Roomed, Stages};
use node_pool::key_at;
use piece_texts::PieceSum;
use stage_network::{FlatKeys, Prepared, sum_from_keys};
use std::alloc::Global;
use weights::{NoMemory, Tail};

// The keys that a part owns.
fn owned(
    alloc: Global,
    width: usize,
    keys: &[i128],
    weights: &[u128],
    owners: &[u64],
    part: u64,
) -> Result<FlatKeys, NoMemory>
    requires long { length keys.now ≡ length weights.now * width }
    requires each { length owners.now ≡ length weights.now }
    ensures nodes { IfOk result (λ flat. nodes_of width flat.keys.items flat.weights.items
        ≡ owned_nodes (nodes_of width keys.now weights.now) owners.now part) }
    ensures long { IfOk result (λ flat.
        length flat.keys.items ≡ length flat.weights.items * width) }
{
    let mut flat = FlatKeys {
        keys: Vec::new(alloc),
        weights: Vec::new(alloc),
    };
    for i in 0..weights.len() {
        flat.push_where(owners[i] == part, key_at(width, keys, i), weights[i])?;
    }
    Ok(flat)
}

// A cut with the keys alone that a part owns.
fn owned_cut<S: Stages>(
    alloc: Global,
    stages: &S,
    tail: Tail,
    from: &CountedCut,
    owners: &[u64],
    part: u64,
) -> Result<CountedCut, NoMemory>
    requires cut { IsCountedCut (S.network stages.now) tail from.now }
    requires each { length owners.now ≡ length from.now.weights.items }
    ensures at { IfOk result (λ own. own.at ≡ from.now.at) }
    ensures closed { IfOk result (λ own. own.closed ≡ from.now.closed) }
    ensures starts { let n = S.network stages.now in
        IfOk result (λ own. AreStarts n from.now.at own.keys.items own.weights.items) }
    ensures sum { let n = S.network stages.now in
        let extreme = weighted (extreme_weight n tail from.now.at) in
        IfOk result (λ own. extreme (counted_nodes n own)
        ≡ owned_sum n tail from.now.at (keys (counted_nodes n from.now)) owners.now part) }
{
    let _lawful = stages.stages();
    let flat = owned(
        alloc,
        stages.width(),
        &from.keys,
        &from.weights,
        owners,
        part,
    )?;
    Ok(CountedCut {
        at: from.at,
        closed: from.closed,
        keys: flat.keys,
        weights: flat.weights,
    })
}

/// The sum over the keys of a cut of a network of rooms whose owner is this part, as
/// [`crate::run_piece`] gives it of any network.
pub fn piece_by_rooms<S: Roomed>(
    alloc: Global,
    stages: &S,
    tail: Tail,
    from: &CountedCut,
    owners: &[u64],
    part: u64,
) -> Result<u128, NoMemory>
    requires cut { IsCountedCut (S.Stages.network stages.now) tail from.now }
    requires each { length owners.now ≡ length from.now.weights.items }
    ensures { let n = S.Stages.network stages.now in
        IfOk result (λ sum. sum
        ≡ owned_sum n tail from.now.at (keys (counted_nodes n from.now)) owners.now part) }
{
    let own = owned_cut(alloc, stages, tail, from, owners, part)?;
    let sum = sum_from_keys(alloc, stages, tail, from.at, &own.keys, &own.weights)?;
    Ok(sum)
}

// Gives as many keys to the parts, one after another.
fn deal(alloc: Global, count: usize, parts: u64) -> Result<Vec<u64>, NoMemory>
    requires { 1 ≤ parts }
    ensures { IfOk result (λ owners. owners.items ≡ dealt parts 0 count) }
{
    let mut owners = Vec::new(alloc);
    for i in 0..count {
        owners.push(i as u64 % parts)?;
    }
    Ok(owners)
}

// The cut of a part: of the open keys of a stage, ascending, those whose place leaves this
// remainder by the number of parts.
fn part_cut<S: Roomed>(
    alloc: Global,
    stages: &S,
    tail: Tail,
    at: usize,
    parts: u64,
    part: u64,
) -> Result<CountedCut, NoMemory>
    requires { 1 ≤ parts }
    ensures cut { IfOk result (IsPartCut (S.Stages.network stages.now) tail at parts part) }
    ensures fits { let n = S.Stages.network stages.now in
        OnOk result (SumFits (piece_sum n tail at parts part)) }
    ensures add { OnOk result (PiecesAddUp (S.Stages.network stages.now) tail at parts) }
{
    let count = stages.stages();
    let from = cut_by_rooms(alloc, stages, tail, at.min(count))?;
    let owners = deal(alloc, from.weights.len(), parts)?;
    let own = owned_cut(alloc, stages, tail, &from, &owners, part)?;
    Ok(own)
}

/// What a part of a run that is divided at a stage knows of a tail: of the open keys there,
/// ascending, those whose place leaves this remainder by the number of parts are the part's. A
/// stage above the last stands for the last.
pub fn part_sum<S: Roomed>(
    alloc: Global,
    stages: &S,
    tail: Tail,
    at: usize,
    parts: u64,
    part: u64,
) -> Result<PieceSum, NoMemory>
    requires { 1 ≤ parts }
    ensures sums { let n = S.Stages.network stages.now in
        IfOk result (λ sums. sums ≡ piece_sum n tail at parts part) }
    ensures fits { IfOk result SumFits }
    ensures add { OnOk result (PiecesAddUp (S.Stages.network stages.now) tail at parts) }
{
    let own = part_cut(alloc, stages, tail, at, parts, part)?;
    Ok(PieceSum {
        closed: own.closed,
        sum: sum_from_keys(alloc, stages, tail, own.at, &own.keys, &own.weights)?,
    })
}

// The cut of a part of a test, by the network that runs.
fn test_cut<P: Prepared>(
    alloc: Global,
    problem: &P,
    tail: Tail,
    at: usize,
    parts: u64,
    part: u64,
) -> Result<CountedCut, NoMemory>
    requires some { 1 ≤ parts }
    requires has { (P.test problem.now).has_tail tail ≡ true }
    ensures cut { IfOk result (IsPartCut (P.running problem.now tail) tail at parts part) }
    ensures fits { let n = P.running problem.now tail in
        OnOk result (SumFits (piece_sum n tail at parts part)) }
    ensures add { OnOk result (PiecesAddUp (P.running problem.now tail) tail at parts) }
    ensures lawful { OnOk result (IsLawful (P.running problem.now tail)) }
    ensures follows { AllFollow (P.test problem.now) (P.running problem.now) }
    ensures written { AreWritten (P.test problem.now) (P.running problem.now)
        (P.network problem.now) }
{
    let stages = problem.stages_of(alloc, tail)?;
    let _lawful = stages.stages();
    let own = part_cut(alloc, &stages, tail, at, parts, part)?;
    Ok(own)
}

// The sum over the keys of a cut by whatever way the test goes on from them. Where this finds no
// memory, the network that runs may: it need not hold as much at once.
fn sum_of<P: Prepared>(
    alloc: Global,
    problem: &P,
    tail: Tail,
    own: &CountedCut,
) -> Result<u128, NoMemory>
    requires has { (P.test problem.now).has_tail tail ≡ true }
    requires starts { AreStarts (P.running problem.now tail) own.now.at
        own.now.keys.items own.now.weights.items }
    ensures { let n = P.running problem.now tail in
        IfOk result (λ sum. sum
        ≡ weighted (extreme_weight n tail own.now.at) (counted_nodes n own.now)) }
{
    if let Ok(sum) = problem.sum_onward(alloc, tail, own.at, &own.keys, &own.weights) {
        return Ok(sum);
    }
    let stages = problem.stages_of(alloc, tail)?;
    let sum = sum_from_keys(alloc, &stages, tail, own.at, &own.keys, &own.weights)?;
    Ok(sum)
}

/// What a part of a run of a test that is divided at a stage knows of a tail, as [`part_sum`] gives
/// it of the network that runs: by whatever way the test goes on from the part's keys, or, where it
/// finds no memory, by that network.
pub fn prepared_part<P: Prepared>(
    alloc: Global,
    problem: &P,
    tail: Tail,
    at: usize,
    parts: u64,
    part: u64,
) -> Result<PieceSum, NoMemory>
    requires some { 1 ≤ parts }
    requires has { (P.test problem.now).has_tail tail ≡ true }
    ensures sums { let n = P.running problem.now tail in
        IfOk result (λ sums. sums ≡ piece_sum n tail at parts part) }
    ensures fits { IfOk result SumFits }
    ensures add { OnOk result (PiecesAddUp (P.running problem.now tail) tail at parts) }
    ensures lawful { OnOk result (IsLawful (P.running problem.now tail)) }
    ensures follows { AllFollow (P.test problem.now) (P.running problem.now) }
    ensures written { AreWritten (P.test problem.now) (P.running problem.now)
        (P.network problem.now) }
{
    let own = test_cut(alloc, problem, tail, at, parts, part)?;
    Ok(PieceSum {
        closed: own.closed,
        sum: sum_of(alloc, problem, tail, &own)?,
    })
}
