// A network of any kind that is cut at a stage, and the sums of the parts.
ghost use Rattle.std.specs.Prelude.{◌≡◌, ℕ, ◌<◌, ◌≤◌, get_or, length, map, pos, IfOk};
ghost use Rattle.weights.specs.declared.TheConstants.{MAX};
ghost use Rattle.node_pool.specs.Nodes.{keys};
ghost use Rattle.pieces.specs.Cuts.{IsCut, PartsAddUp, cut_nodes, owned_sum};

use crate::cuts::{CountedCut, Cut};
use crate::cutting::cut_by_rooms;
use crate::parting::piece_by_rooms;
use networks::{Stages, Whole};
use stage_network::counts_of;
use std::alloc::Global;
use weights::{Ints, NoMemory, Tail};

// Counts as a list of signed numbers.
fn listed(alloc: Global, counts: &[u128]) -> Result<Ints, NoMemory>
    requires { (i : ℕ) → i < length counts.now → get_or counts.now i 0 ≤ MAX }
    ensures { IfOk result (λ numbers. numbers ≡ map pos counts.now) }
{
    let mut numbers = Ints::empty(alloc);
    for i in 0..counts.len() {
        numbers.push(counts[i] as i128)?;
    }
    Ok(numbers)
}

/// The open keys of a stage that are reached through open keys alone, and what was closed at that
/// stage or before.
pub fn cut<S: Stages>(alloc: Global, stages: &S, tail: Tail, at: usize) -> Result<Cut, NoMemory>
    requires { at ≤ (S.network stages.now).count }
    ensures at { IfOk result (λ cut. cut.at ≡ at) }
    ensures cut { IfOk result (IsCut (S.network stages.now) tail) }
    ensures parts { let n = S.network stages.now in
        IfOk result (λ cut. PartsAddUp n tail at cut.closed (keys (cut_nodes n cut))) }
{
    let _lawful = stages.stages();
    let whole = Whole::new(stages);
    let counted = cut_by_rooms(alloc, &whole, tail, at)?;
    let mut keys = Ints::empty(alloc);
    keys.append(&counted.keys)?;
    let weights = listed(alloc, &counted.weights)?;
    Ok(Cut {
        at,
        closed: counted.closed,
        keys,
        weights,
    })
}

/// The sum over the keys of a cut whose owner is this part: the summed weight of the extreme
/// completions that meet open keys alone up to the cut, the last of which the part owns.
pub fn run_piece<S: Stages>(
    alloc: Global,
    stages: &S,
    tail: Tail,
    from: &Cut,
    owners: &[u64],
    part: u64,
) -> Result<u128, NoMemory>
    requires cut { IsCut (S.network stages.now) tail from.now }
    requires each { length owners.now ≡ length from.now.weights }
    ensures { let n = S.network stages.now in
        IfOk result (λ sum. sum
        ≡ owned_sum n tail from.now.at (keys (cut_nodes n from.now)) owners.now part) }
{
    let counted = CountedCut {
        at: from.at,
        closed: from.closed,
        keys: Vec::from_slice(alloc, from.keys.as_slice())?,
        weights: counts_of(alloc, from.weights.as_slice())?,
    };
    let whole = Whole::new(stages);
    let sum = piece_by_rooms(alloc, &whole, tail, &counted, owners, part)?;
    Ok(sum)
}
