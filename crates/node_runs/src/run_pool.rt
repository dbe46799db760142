// Keys with weights, merged or hashed.
ghost use Rattle.std.specs.Prelude.{◌≡◌, ℕ, ℤ, List, ◌+◌, ◌<◌, ◌≤◌, [], ◌∷◌, length};
ghost use Rattle.std.specs.Prelude.{IfOk, OnOk, false, slice_index_or};
ghost use Rattle.std.specs.List.{IsDistinct};
ghost use Rattle.node_pool.specs.Nodes.{Node, key_eq, keys, node, weighted};
ghost use Rattle.node_runs.specs.Runs.{IsGrown, IsPoured};

use crate::merger::Merger;
use node_pool::NodePool;
use std::alloc::Global;
use std::marker::Model;
use weights::{Count, NoMemory};

/// A finite map from keys, lists of `width` numbers, to weights, that is filled by runs. A few runs
/// of keys of one number are merged as long as they ascend; all other keys are hashed. Keys that do
/// not ascend within their run are put aside, sorted and merged as a run of their own, by
/// `add_or_keep` and `add_loose`.
#[derive(Drop)]
pub struct RunPool<C: Count> {
    width: usize,
    is_merging: bool,
    merger: Merger<C>,
    table: NodePool<C>,
}

impl<C: Count> Model for RunPool<C> {
    ghost use Rattle.std.specs.Prelude.{if◌then◌else◌};
    ghost use Rattle.node_pool.specs.Nodes.{NodeRow};
    ghost use Rattle.node_runs.specs.RunSteps.{IsRunPool};

    ghost Value = { NodeRow };

    ghost view = { λ p. record {
      width = p.width;
      nodes = if p.is_merging then p.merger else p.table.nodes;
    } };

    ghost invariant = { λ p. IsRunPool p.width p.is_merging p.table };
}

// Adds a weight to a key's in a table.
#[inline(always)]
fn put<C: Count>(table: &mut NodePool<C>, key: &[i128], weight: C) -> Result<(), NoMemory>
    requires wide { length key.now ≡ table.old.width }
    requires fits { weighted (λ k. 1) table.old.nodes + C.number weight ≤ C.LIMIT }
    ensures width { table.new.width ≡ table.old.width }
    ensures grown { OnOk result
        (IsGrown table.old.nodes key.now (C.number weight) table.new.nodes) }
{
    table.reserve(1)?;
    table.add(key, weight);
    Ok(())
}

// Puts the keys of a merger into a table.
#[inline(never)]
fn pour<C: Count>(from: &Merger<C>, table: &mut NodePool<C>) -> Result<(), NoMemory>
    requires wide { table.old.width ≡ 1 }
    requires fits { weighted (λ k. 1) table.old.nodes + weighted (λ k. 1) from.now ≤ C.LIMIT }
    ensures wide { table.new.width ≡ 1 }
    ensures poured { OnOk result (IsPoured table.old.nodes from.now table.new.nodes) }
{
    for i in 0..from.len() {
        put(table, from.key(i), from.weight(i))?;
    }
    Ok(())
}

impl<C: Count> RunPool<C> {
    /// No keys, for keys of this many numbers, at most 16.
    pub fn new(alloc: Global, width: usize) -> Result<RunPool<C>, NoMemory>
        requires { width ≤ 16 }
        ensures { IfOk result (λ pool. pool ≡ record { width = width; nodes = [] }) }
    {
        Ok(RunPool {
            width,
            is_merging: false,
            merger: Merger::new(alloc),
            table: NodePool::new(alloc, width)?,
        })
    }

    /// How many keys there are. Each stands at one place.
    #[inline(always)]
    pub fn len(&self) -> usize
        ensures count { result ≡ length self.now.nodes }
        ensures apart { IsDistinct key_eq (keys self.now.nodes) }
    {
        if self.is_merging {
            self.merger.len()
        } else {
            self.table.len()
        }
    }

    /// The key at a place.
    #[inline(always)]
    pub fn key(&self, i: usize) -> &[i128]
        requires { i < length self.now.nodes }
        ensures key { (d : Node) → result.now ≡ (slice_index_or self.now.nodes i d).key }
        ensures wide { length result.now ≡ self.now.width }
    {
        if self.is_merging {
            self.merger.key(i)
        } else {
            self.table.key(i)
        }
    }

    /// The weight at a place.
    #[inline(always)]
    pub fn weight(&self, i: usize) -> C
        requires { i < length self.now.nodes }
        ensures { (d : Node) → C.number result ≡ (slice_index_or self.now.nodes i d).weight }
    {
        if self.is_merging {
            self.merger.weight(i)
        } else {
            self.table.weight(i)
        }
    }

    /// Empties the map. What comes then is merged where its runs are few, if its keys are numbers.
    pub fn clear(&mut self, are_few: bool)
        ensures width { self.new.width ≡ self.old.width }
        ensures nodes { self.new.nodes ≡ [] }
    {
        self.merger.clear();
        self.table.clear();
        self.is_merging = are_few && self.width == 1;
    }

    /// Empties the map, and puts one key into it.
    pub fn put_one(&mut self, key: &[i128], weight: C) -> Result<(), NoMemory>
        requires wide { length key.now ≡ self.old.width }
        requires limit { C.number weight ≤ C.LIMIT }
        ensures width { OnOk result (self.new.width ≡ self.old.width) }
        ensures nodes { OnOk result
            (self.new.nodes ≡ node key.now (C.number weight) ∷ []) }
    {
        self.is_merging = false;
        self.table.clear();
        self.table.reserve(1)?;
        self.table.add(key, weight);
        Ok(())
    }

    /// Begins a run.
    #[inline(always)]
    pub fn begin_run(&mut self) -> Result<(), NoMemory>
        ensures width { self.new.width ≡ self.old.width }
        ensures nodes { OnOk result (self.new.nodes ≡ self.old.nodes) }
    {
        if self.is_merging {
            self.merger.begin_run()
        } else {
            Ok(())
        }
    }

    /// Whether the next key of a run comes behind those that the run has passed, or need not.
    #[inline(always)]
    pub fn takes(&self, key: &[i128]) -> bool
        requires { length key.now ≡ self.now.width }
        ensures { result ≡ false → self.now.width ≡ 1 }
    {
        !self.is_merging || self.merger.takes(key)
    }

    /// Adds a weight to a key's, which is 0 where the key is not held.
    #[inline(always)]
    pub fn add(&mut self, key: &[i128], weight: C) -> Result<(), NoMemory>
        requires wide { length key.now ≡ self.old.width }
        requires fits { weighted (λ k. 1) self.old.nodes + C.number weight ≤ C.LIMIT }
        ensures width { OnOk result (self.new.width ≡ self.old.width) }
        ensures grown { OnOk result
            (IsGrown self.old.nodes key.now (C.number weight) self.new.nodes) }
    {
        if !self.is_merging {
            return put(&mut self.table, key, weight);
        }
        if self.merger.take(key, weight)? {
            return Ok(());
        }
        self.is_merging = false;
        pour(&self.merger, &mut self.table)?;
        put(&mut self.table, key, weight)
    }
}
