// The public calls of `node_pool`.
ghost use Rattle.std.specs.Prelude.{[], if◌then◌else◌, ◌+◌, ◌-◌, ◌<◌, ◌≡◌, ◌≤◌, IfOk, OnErr, OnOk, false, length, slice_index_or};
ghost use Rattle.std.specs.List.{IsDistinct};
ghost use Rattle.node_pool.specs.Nodes.{Node, is_held, key_eq, keys, weight_in};
ghost use Rattle.node_pool.specs.Pool.{IsMerge};

use node_pool::NodePool;
use std::alloc::Global;
use weights::{Count, NoMemory};

/// A pool that is empty, with no spare.
pub fn new_pool<C: Count>(alloc: Global, width: usize) -> Result<NodePool<C>, NoMemory>
    requires some { 1 ≤ width }
    requires most { width ≤ 16 }
    ensures { IfOk result (λ pool. pool ≡ record { width = width; nodes = []; spare = 0 }) }
{
    NodePool::new(alloc, width)
}

/// Spare of at least n, or the pool as it was.
pub fn reserve<C: Count>(pool: &mut NodePool<C>, n: usize) -> Result<(), NoMemory>
    ensures width { pool.new.width ≡ pool.old.width }
    ensures nodes { pool.new.nodes ≡ pool.old.nodes }
    ensures ok { OnOk result (n ≤ pool.new.spare) }
    ensures err { OnErr result (pool.new.spare ≡ pool.old.spare) }
{
    pool.reserve(n)
}

/// A weight for a key, merged with what the pool holds of it.
pub fn add<C: Count>(pool: &mut NodePool<C>, key: &[i128], weight: C)
    requires wide { length key.now ≡ pool.old.width }
    requires room { is_held pool.old.nodes key.now ≡ false → 1 ≤ pool.old.spare }
    requires fits { weight_in pool.old.nodes key.now + C.number weight ≤ C.LIMIT }
    ensures width { pool.new.width ≡ pool.old.width }
    ensures merged { IsMerge pool.old.nodes key.now (C.number weight) pool.new.nodes }
    ensures spare { let held = is_held pool.old.nodes key.now in
        pool.new.spare ≡ (if held then pool.old.spare else pool.old.spare - 1) }
{
    pool.add(key, weight);
}

/// How many keys there are, which are distinct.
pub fn pool_len<C: Count>(pool: &NodePool<C>) -> usize
    ensures count { result ≡ length pool.now.nodes }
    ensures apart { IsDistinct key_eq (keys pool.now.nodes) }
{
    pool.len()
}

/// A key.
pub fn pool_key<C: Count>(pool: &NodePool<C>, i: usize) -> &[i128]
    requires { i < length pool.now.nodes }
    ensures key { (d : Node) → result.now ≡ (slice_index_or pool.now.nodes i d).key }
    ensures wide { length result.now ≡ pool.now.width }
{
    pool.key(i)
}

/// The weight of a key.
pub fn pool_weight<C: Count>(pool: &NodePool<C>, i: usize) -> C
    requires { i < length pool.now.nodes }
    ensures { (d : Node) → C.number result ≡ (slice_index_or pool.now.nodes i d).weight }
{
    pool.weight(i)
}

/// Spare.
pub fn pool_spare<C: Count>(pool: &NodePool<C>) -> usize
    ensures { result ≡ pool.now.spare }
{
    pool.spare()
}

/// An empty pool that keeps its room.
pub fn clear<C: Count>(pool: &mut NodePool<C>)
    ensures width { pool.new.width ≡ pool.old.width }
    ensures nodes { pool.new.nodes ≡ [] }
    ensures spare { length pool.old.nodes + pool.old.spare ≤ pool.new.spare }
{
    pool.clear();
}
