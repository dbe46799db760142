// A few ascending runs of keys, merged one after another.
ghost use Rattle.std.specs.Prelude.{◌≡◌, ◌+◌, ◌<◌, ◌≤◌, [], ◌++◌, true, length, drop};
ghost use Rattle.std.specs.Prelude.{IfOk, OnOk, slice_index_or, pos, ◌<ℤ◌, ◌≤ℤ◌};
ghost use Rattle.std.specs.List.{IsDistinct};
ghost use Rattle.node_pool.specs.Nodes.{Node, key_eq, keys, weighted};
ghost use Rattle.node_runs.specs.Runs.{IsGrown};
ghost use Rattle.node_runs.specs.RunSteps.{IsAscending, IsMerger, IsOver, IsPassed, IsTaken};
ghost use Rattle.node_runs.specs.RunSteps.{lead, leads};

use node_pool::NodeList;
use std::alloc::Global;
use std::marker::Model;
use std::mem;
use weights::{Count, NoMemory};

/// Keys of one number, ascending, each with a weight. Of a run that is taken in, what it has passed
/// stands in `into`, and what lies before it in `from`, from a place on.
#[derive(Drop)]
pub struct Merger<C: Count> {
    into: NodeList<C>,
    from: NodeList<C>,
    at: usize,
    count: usize,
}

impl<C: Count> Model for Merger<C> {
    ghost use Rattle.std.specs.Prelude.{List, ◌++◌, drop};
    ghost use Rattle.node_pool.specs.Nodes.{Node};
    ghost use Rattle.node_runs.specs.RunSteps.{IsMerger};

    ghost Value = { List Node };

    ghost view = { λ p. p.into.nodes ++ drop p.at p.from.nodes };

    ghost invariant = { λ p. IsMerger p.into p.from p.at p.count };
}

// The number that is the key at a place.
#[inline(always)]
fn number_at<C: Count>(nodes: &NodeList<C>, i: usize) -> i128
    requires within { i < length nodes.now.nodes }
    requires one { nodes.now.width ≡ 1 }
    ensures { (d : Node) → result ≡ lead (slice_index_or nodes.now.nodes i d) }
{
    nodes.key(i)[0]
}

// Moves the node at a place behind another list, and the place on. A list that is refused the
// memory stays as it was, and so does the place.
#[inline(always)]
fn pass<C: Count>(
    from: &NodeList<C>,
    at: &mut usize,
    into: &mut NodeList<C>,
) -> Result<(), NoMemory>
    requires within { at.old < length from.now.nodes }
    requires wide { from.now.width ≡ into.old.width }
    ensures passed { IsPassed from.now.nodes at.old into.old at.new into.new }
    ensures one { OnOk result (at.new ≡ at.old + 1) }
{
    let _length = from.len();
    into.push(from.key(*at), from.weight(*at))?;
    *at += 1;
    Ok(())
}

// Moves those that come before a number.
#[inline(always)]
fn pass_below<C: Count>(
    from: &NodeList<C>,
    at: &mut usize,
    number: i128,
    into: &mut NodeList<C>,
) -> Result<(), NoMemory>
    requires within { at.old ≤ length from.now.nodes }
    requires one { from.now.width ≡ 1 }
    requires wide { into.old.width ≡ 1 }
    ensures passed { IsPassed from.now.nodes at.old into.old at.new into.new }
    ensures rest { (d : Node) → OnOk result (at.new < length from.now.nodes
        → number ≤ℤ lead (slice_index_or from.now.nodes at.new d)) }
{
    while *at < from.len() && number_at(from, *at) < number {
        pass(from, at, into)?;
    }
    Ok(())
}

// Moves all.
fn pass_all<C: Count>(
    from: &NodeList<C>,
    at: &mut usize,
    into: &mut NodeList<C>,
) -> Result<(), NoMemory>
    requires within { at.old ≤ length from.now.nodes }
    requires wide { from.now.width ≡ into.old.width }
    ensures passed { IsPassed from.now.nodes at.old into.old at.new into.new }
    ensures all { OnOk result (at.new ≡ length from.now.nodes) }
{
    while *at < from.len() {
        pass(from, at, into)?;
    }
    Ok(())
}

// Whether a number comes behind the last of ascending keys.
#[inline(always)]
fn is_over<C: Count>(nodes: &NodeList<C>, number: i128) -> bool
    requires one { nodes.now.width ≡ 1 }
    ensures { result ≡ true → IsAscending (leads nodes.now.nodes)
        → IsOver number (leads nodes.now.nodes) }
{
    let count = nodes.len();
    count == 0 || number_at(nodes, count - 1) < number
}

/// The sum of two counts.
#[inline(always)]
pub fn plus<C: Count>(a: C, b: C) -> C
    requires { C.number a + C.number b ≤ C.LIMIT }
    ensures { C.number result ≡ C.number a + C.number b }
{
    match a.checked_add(b) {
        Some(sum) => sum,
        None => unreachable!(),
    }
}

// Takes in the next key of a run: its weight is added to the key that stands at the place, where
// the two are the same; else it is put between that and the last one that was passed.
#[inline(always)]
fn put<C: Count>(
    from: &NodeList<C>,
    at: &mut usize,
    into: &mut NodeList<C>,
    count: &mut usize,
    key: &[i128],
    weight: C,
) -> Result<(), NoMemory>
    requires merger { IsMerger into.old from.now at.old count.old }
    requires one { length key.now ≡ 1 }
    requires fits { let all = into.old.nodes ++ drop at.old from.now.nodes in
        weighted (λ k. 1) all + C.number weight ≤ C.LIMIT }
    requires low { IsOver (slice_index_or key.now 0 (pos 0)) (leads into.old.nodes) }
    requires high { let z = slice_index_or key.now 0 (pos 0) in (d : Node)
        → at.old < length from.now.nodes
        → z ≤ℤ lead (slice_index_or from.now.nodes at.old d) }
    ensures merger { IsMerger into.new from.now at.new count.new }
    ensures grown { let old = into.old.nodes ++ drop at.old from.now.nodes in
        let new = into.new.nodes ++ drop at.new from.now.nodes in
        OnOk result (IsGrown old key.now (C.number weight) new) }
{
    let length = from.len();
    if *at < length && number_at(from, *at) == key[0] {
        let sum = plus(from.weight(*at), weight);
        into.push(from.key(*at), sum)?;
        *at += 1;
        return Ok(());
    }
    let more = match count.checked_add(1) {
        Some(more) => more,
        None => return Err(NoMemory),
    };
    into.push(key, weight)?;
    *count = more;
    Ok(())
}

impl<C: Count> Merger<C> {
    /// No keys.
    pub fn new(alloc: Global) -> Merger<C>
        ensures { result ≡ [] }
    {
        Merger {
            into: NodeList::new(alloc, 1),
            from: NodeList::new(alloc, 1),
            at: 0,
            count: 0,
        }
    }

    /// How many keys there are, which all differ.
    #[inline(always)]
    pub fn len(&self) -> usize
        ensures count { result ≡ length self.now }
        ensures apart { IsDistinct key_eq (keys self.now) }
    {
        self.count
    }

    /// The key at a place.
    #[inline(always)]
    pub fn key(&self, i: usize) -> &[i128]
        requires { i < length self.now }
        ensures key { (d : Node) → result.now ≡ (slice_index_or self.now i d).key }
        ensures wide { length result.now ≡ 1 }
    {
        let done = self.into.len();
        let _left = self.from.len();
        if i < done {
            self.into.key(i)
        } else {
            self.from.key(self.at + (i - done))
        }
    }

    /// The weight at a place.
    #[inline(always)]
    pub fn weight(&self, i: usize) -> C
        requires { i < length self.now }
        ensures { (d : Node) → C.number result ≡ (slice_index_or self.now i d).weight }
    {
        let done = self.into.len();
        let _left = self.from.len();
        if i < done {
            self.into.weight(i)
        } else {
            self.from.weight(self.at + (i - done))
        }
    }

    /// Begins a run.
    pub fn begin_run(&mut self) -> Result<(), NoMemory>
        ensures { OnOk result (self.new ≡ self.old) }
    {
        pass_all(&self.from, &mut self.at, &mut self.into)?;
        mem::swap(&mut self.from, &mut self.into);
        self.into.clear();
        self.at = 0;
        Ok(())
    }

    /// Whether a key comes behind those that the run has passed.
    #[inline(always)]
    pub fn takes(&self, key: &[i128]) -> bool
        requires { length key.now ≡ 1 }
    {
        is_over(&self.into, key[0])
    }

    /// Takes in the next key of a run. False where it does not ascend: then no key is changed.
    #[inline(always)]
    pub fn take(&mut self, key: &[i128], weight: C) -> Result<bool, NoMemory>
        requires wide { length key.now ≡ 1 }
        requires fits { weighted (λ k. 1) self.old + C.number weight ≤ C.LIMIT }
        ensures { IfOk result (IsTaken self.old key.now (C.number weight) self.new) }
    {
        let number = key[0];
        pass_below(&self.from, &mut self.at, number, &mut self.into)?;
        if !is_over(&self.into, number) {
            return Ok(false);
        }
        put(
            &self.from,
            &mut self.at,
            &mut self.into,
            &mut self.count,
            key,
            weight,
        )?;
        Ok(true)
    }

    /// Forgets all keys. It keeps their memory.
    pub fn clear(&mut self)
        ensures { self.new ≡ [] }
    {
        self.into.clear();
        self.from.clear();
        self.at = 0;
        self.count = 0;
    }
}
