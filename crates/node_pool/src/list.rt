// Keys with weights, one after another.
ghost use Rattle.std.specs.Prelude.{◌≡◌, ◌+◌, ◌<◌, [], ◌∷◌, ◌++◌, length};
ghost use Rattle.std.specs.Prelude.{OnOk, OnErr, slice_index_or};
ghost use Rattle.node_pool.specs.Nodes.{Node, NodeRow, node};

use crate::room::{append_within, push_within};
use crate::table::key_at;
use std::alloc::Global;
use std::marker::Model;
use weights::{Count, NoMemory};

/// Keys of one width, each with a weight, in the order of their arrival. Equal keys stay apart.
#[derive(Drop)]
pub struct NodeList<C: Count> {
    width: usize,
    row: Vec<i128>,
    weights: Vec<C>,
}

impl<C: Count> Model for NodeList<C> {
    ghost use Rattle.std.specs.Prelude.{map};
    ghost use Rattle.node_pool.specs.Nodes.{NodeRow};
    ghost use Rattle.node_pool.specs.PoolSteps.{IsRow, nodes_of};

    ghost Value = { NodeRow };

    ghost view = { λ p. record {
      width = p.width;
      nodes = nodes_of p.width p.row.items (map C.number p.weights.items);
    } };

    ghost invariant = { λ p. IsRow p.width p.row.items (map C.number p.weights.items) };
}

impl<C: Count> NodeList<C> {
    /// No keys, for keys of this many numbers. It takes no memory.
    pub fn new(alloc: Global, width: usize) -> NodeList<C>
        ensures { result ≡ record { width = width; nodes = [] } }
    {
        NodeList {
            width,
            row: Vec::new(alloc),
            weights: Vec::new(alloc),
        }
    }

    /// How many keys there are.
    #[inline(always)]
    pub fn len(&self) -> usize
        ensures { result ≡ length self.now.nodes }
    {
        self.weights.len()
    }

    /// The key at a place.
    #[inline(always)]
    pub fn key(&self, i: usize) -> &[i128]
        requires { i < length self.now.nodes }
        ensures key { (d : Node) → result.now ≡ (slice_index_or self.now.nodes i d).key }
        ensures wide { length result.now ≡ self.now.width }
    {
        key_at(self.width, &self.row, i)
    }

    /// The weight at a place.
    #[inline(always)]
    pub fn weight(&self, i: usize) -> C
        requires { i < length self.now.nodes }
        ensures { (d : Node) → C.number result ≡ (slice_index_or self.now.nodes i d).weight }
    {
        self.weights[i]
    }

    /// Adds a key at the end. A list that is refused the memory stays as it was.
    #[inline(always)]
    pub fn push(&mut self, key: &[i128], weight: C) -> Result<(), NoMemory>
        requires { length key.now ≡ self.old.width }
        ensures width { self.new.width ≡ self.old.width }
        ensures ok { let added = node key.now (C.number weight) in
            OnOk result (self.new.nodes ≡ self.old.nodes ++ added ∷ []) }
        ensures err { OnErr result (self.new.nodes ≡ self.old.nodes) }
    {
        self.weights.reserve(1)?;
        self.row.reserve(key.len())?;
        append_within(&mut self.row, key);
        push_within(&mut self.weights, weight);
        Ok(())
    }

    /// Empties the list. It keeps its memory.
    pub fn clear(&mut self)
        ensures width { self.new.width ≡ self.old.width }
        ensures nodes { self.new.nodes ≡ [] }
    {
        self.row.clear();
        self.weights.clear();
    }
}
