// Keys laid flat, with their weights, and nodes that are sorted by their keys and laid so.
ghost use Rattle.std.specs.Prelude.{◌≡◌, ◌*◌, ◌∷◌, [], ◌++◌, cond, length, map};
ghost use Rattle.std.specs.Prelude.{OnOk, IfOk, IsPermutation};
ghost use Rattle.std.specs.List.{AllByRecursion};
ghost use Rattle.std.specs.List.Sorted.{IsSortedBy};
ghost use Rattle.std.specs.Ordering.{is_lt};
ghost use Rattle.node_pool.specs.Nodes.{Node};
ghost use Rattle.node_pool.specs.PoolSteps.{nodes_of};
ghost use Rattle.stage_network.specs.Ordering.{entry_cmp, entry_node};

use crate::ordering::{Entry, sort_entries};
use std::alloc::Global;
use weights::NoMemory;

/// Keys of one width, one after another, and the weight of each.
#[derive(Drop)]
pub struct FlatKeys {
    pub keys: Vec<i128>,
    pub weights: Vec<u128>,
}

impl FlatKeys {
    /// Adds a key with its weight, or leaves it out.
    pub fn push_where(&mut self, taken: bool, key: &[i128], weight: u128) -> Result<(), NoMemory>
        ensures keys { OnOk result
            (self.new.keys.items ≡ self.old.keys.items ++ cond taken key.now []) }
        ensures weights { OnOk result
            (self.new.weights.items ≡ self.old.weights.items ++ cond taken (weight ∷ []) []) }
    {
        if taken {
            self.keys.extend_from_slice(key)?;
            self.weights.push(weight)?;
        }
        Ok(())
    }
}

/// Sorts nodes by their keys, and lays them flat.
pub fn laid_flat(
    alloc: Global,
    width: usize,
    entries: &mut [Entry<'_>],
) -> Result<FlatKeys, NoMemory>
    requires { AllByRecursion (λ (a : Node). length a.key ≡ width) (map entry_node entries.old) }
    ensures permutation { IsPermutation entries.old entries.new }
    ensures sorted { IsSortedBy (λ a b. is_lt (entry_cmp a b)) entries.new }
    ensures nodes { IfOk result (λ flat.
        nodes_of width flat.keys.items flat.weights.items ≡ map entry_node entries.new) }
    ensures long { IfOk result (λ flat.
        length flat.keys.items ≡ length flat.weights.items * width) }
{
    sort_entries(entries);
    let mut keys = Vec::new(alloc);
    let mut weights = Vec::new(alloc);
    for i in 0..entries.len() {
        let entry = entries[i];
        keys.extend_from_slice(entry.room)?;
        keys.extend_from_slice(entry.partial)?;
        weights.push(entry.weight)?;
    }
    Ok(FlatKeys { keys, weights })
}
