// The sum over keys of any network that are listed with their weights.
ghost use Rattle.std.specs.Prelude.{◌≡◌, map, nat_abs, IfOk};
ghost use Rattle.node_pool.specs.Nodes.{weighted};
ghost use Rattle.node_pool.specs.PoolSteps.{nodes_of};
ghost use Rattle.networks.specs.Completions.{extreme_weight};
ghost use Rattle.stage_network.specs.FromKeys.{AreStarts};

use crate::from_keys::sum_from_keys;
use networks::{Stages, Whole};
use std::alloc::Global;
use weights::{Ints, NoMemory, Tail};

/// The sizes of signed numbers, as counts: weights that are listed as such are at least 1.
pub fn counts_of(alloc: Global, numbers: &[i128]) -> Result<Vec<u128>, NoMemory>
    ensures { IfOk result (λ counts. counts.items ≡ map nat_abs numbers.now) }
{
    let mut counts = Vec::new(alloc);
    for i in 0..numbers.len() {
        counts.push(numbers[i].unsigned_abs())?;
    }
    Ok(counts)
}

/// The sum, over distinct keys that are reached at a stage and lie one after another, of the key's
/// weight times the summed weight of its extreme completions.
pub fn tail_sum_from<S: Stages>(
    alloc: Global,
    stages: &S,
    tail: Tail,
    at: usize,
    keys: &Ints,
    weights: &Ints,
) -> Result<u128, NoMemory>
    requires { AreStarts (S.network stages.now) at keys.now (map nat_abs weights.now) }
    ensures { let n = S.network stages.now in
        let nodes = nodes_of n.width keys.now (map nat_abs weights.now) in
        IfOk result (λ sum. sum ≡ weighted (extreme_weight n tail at) nodes) }
{
    let counts = counts_of(alloc, weights.as_slice())?;
    let whole = Whole::new(stages);
    let sum = sum_from_keys(alloc, &whole, tail, at, keys.as_slice(), &counts)?;
    Ok(sum)
}
