// A finite map from keys to weights, with room that was asked for before.
ghost use Rattle.std.specs.Prelude.{◌≡◌, ◌+◌, ◌-◌, ◌*◌, ◌^◌, ◌<◌, ◌≤◌, [], ◌∷◌, ◌++◌, false, length};
ghost use Rattle.std.specs.Prelude.{vec_len, vec_capacity, IfOk, IfSome, OnOk, OnErr};
ghost use Rattle.std.specs.Prelude.{slice_index_or, slice_set, pos, if◌then◌else◌};
ghost use Rattle.std.specs.List.{IsDistinct};
ghost use Rattle.node_pool.specs.Nodes.{Node, key_eq, keys, is_held, weight_in};
ghost use Rattle.node_pool.specs.Pool.{Pool, IsMerge, IsPlaced};
ghost use Rattle.node_pool.specs.PoolSteps.{IsSizeFor, weight_of};

use crate::room::{append_within, push_within};
use crate::table::{Found, cell_key, clear_buckets, find, rehash};
use std::alloc::Global;
use std::marker::{Model, PhantomData};
use weights::{Count, NoMemory};

/// A finite map from keys, lists of `width` numbers, to weights, and a number, spare: how many new
/// keys can be added before memory is needed. Only [`NodePool::new`] and [`NodePool::reserve`] take
/// memory.
///
/// The keys lie flat in one row of cells, each with its weight behind it, so that one reach into
/// memory brings both. Buckets name their places, by open addressing with linear steps: a power of
/// two, at most half full. A list of the slots in use makes emptying cheap.
#[derive(Drop)]
pub struct NodePool<C: Count> {
    alloc: Global,
    width: usize,
    cells: Vec<i128>,
    counts: PhantomData<C>,
    slots: Vec<u32>,
    buckets: Vec<u32>,
    spare: usize,
}

impl<C: Count> Model for NodePool<C> {
    ghost use Rattle.std.specs.Prelude.{length, vec_capacity};
    ghost use Rattle.node_pool.specs.Pool.{Pool};
    ghost use Rattle.node_pool.specs.PoolSteps.{IsCellPool, cell_nodes};

    ghost Value = { Pool };

    ghost view = { λ p. record {
      width = p.width;
      nodes = cell_nodes p.width (length p.slots.items) p.cells.items;
      spare = p.spare;
    } };

    ghost invariant = { λ p.
        IsCellPool p.width C.LIMIT p.cells.items p.slots.items p.buckets.items p.spare
        (vec_capacity p.cells) (vec_capacity p.slots) };
}

// How many buckets a new pool has.
const FEWEST: usize = 16;

// The greatest number of keys.
const MOST: usize = 1 << 31;

// The weight that a number of a cell stands for.
#[inline(always)]
fn weight_in<C: Count>(number: i128) -> C
    requires { weight_of number ≤ C.LIMIT }
    ensures { C.number result ≡ weight_of number }
{
    match C::of(number.cast_unsigned()) {
        Some(weight) => weight,
        None => unreachable!(),
    }
}

// The number that stands for a weight in a cell.
#[inline(always)]
fn number_for<C: Count>(weight: C) -> i128
    ensures { weight_of result ≡ C.number weight }
{
    weight.value().cast_signed()
}

// Adds a weight to that of a number of a cell, where the sum is within the limit.
#[inline(always)]
fn raised<C: Count>(number: i128, weight: C) -> i128
    requires fits { weight_of number + C.number weight ≤ C.LIMIT }
    ensures { weight_of result ≡ weight_of number + C.number weight }
{
    match weight_in::<C>(number).checked_add(weight) {
        Some(sum) => number_for(sum),
        None => unreachable!(),
    }
}

// Adds a weight to the one at a place of cells.
#[inline(always)]
fn raise<C: Count>(cells: &mut Vec<i128>, place: usize, weight: C)
    requires within { place < vec_len cells.old }
    requires fits { let number = slice_index_or cells.old.items place (pos 0) in
        weight_of number + C.number weight ≤ C.LIMIT }
    ensures cells { let number = slice_index_or cells.new.items place (pos 0) in
        cells.new.items ≡ slice_set cells.old.items place number }
    ensures weight { let number = slice_index_or cells.old.items place (pos 0) in
        weight_of (slice_index_or cells.new.items place (pos 0))
        ≡ weight_of number + C.number weight }
    ensures room { vec_capacity cells.new ≡ vec_capacity cells.old }
{
    cells[place] = raised(cells[place], weight);
}

// Adds a key with its slot and its weight, where there is room, and answers its place. Apart, so
// that the steps for a held key stay few where they are inlined.
#[inline(never)]
fn put(
    slots: &mut Vec<u32>,
    cells: &mut Vec<i128>,
    slot: usize,
    key: &[i128],
    number: i128,
) -> usize
    requires small { slot < 2 ^ 32 }
    requires slots_fit { vec_len slots.old < vec_capacity slots.old }
    requires cells_fit { vec_len cells.old + length key.now < vec_capacity cells.old }
    ensures place { result ≡ length slots.old.items }
    ensures slots { slots.new.items ≡ slots.old.items ++ slot ∷ [] }
    ensures cells { cells.new.items ≡ (cells.old.items ++ key.now) ++ number ∷ [] }
    ensures slot_room { vec_capacity slots.old ≤ vec_capacity slots.new }
    ensures cell_room { vec_capacity cells.old ≤ vec_capacity cells.new }
{
    let place = slots.len();
    push_within(slots, slot as u32);
    append_within(cells, key);
    push_within(cells, number);
    place
}

// The least doubling of the buckets that is at most half full with this many keys and this many
// more. None for more than the buckets can name.
fn size_for(least: usize, count: usize, more: usize) -> Option<usize>
    requires some { 1 ≤ least }
    requires half { 2 * count ≤ least }
    requires small { least ≤ 2 ^ 32 }
    ensures { IfSome result (IsSizeFor least (count + more)) }
{
    if more > MOST - count {
        return None;
    }
    let mut size = least;
    while size < 2 * (count + more) {
        if size > MOST {
            return None;
        }
        size *= 2;
    }
    Some(size)
}

impl<C: Count> NodePool<C> {
    /// No keys, for keys of this many numbers, at most 16, with spare 0. Where they have none,
    /// there is one key at most.
    pub fn new(alloc: Global, width: usize) -> Result<NodePool<C>, NoMemory>
        requires { width ≤ 16 }
        ensures { IfOk result (λ pool. pool ≡ record { width = width; nodes = []; spare = 0 }) }
    {
        let buckets = vec![in alloc; 0u32; FEWEST]?;
        Ok(NodePool {
            alloc,
            width,
            cells: Vec::new(alloc),
            counts: PhantomData,
            slots: Vec::new(alloc),
            buckets,
            spare: 0,
        })
    }

    /// How many keys there are. Each stands at one place.
    #[inline(always)]
    pub fn len(&self) -> usize
        ensures count { result ≡ length self.now.nodes }
        ensures apart { IsDistinct key_eq (keys self.now.nodes) }
    {
        self.slots.len()
    }

    /// The key at a place.
    #[inline(always)]
    pub fn key(&self, i: usize) -> &[i128]
        requires { i < length self.now.nodes }
        ensures key { (d : Node) → result.now ≡ (slice_index_or self.now.nodes i d).key }
        ensures wide { length result.now ≡ self.now.width }
    {
        cell_key(self.width, &self.cells, i)
    }

    /// The weight at a place.
    #[inline(always)]
    pub fn weight(&self, i: usize) -> C
        requires { i < length self.now.nodes }
        ensures { (d : Node) → C.number result ≡ (slice_index_or self.now.nodes i d).weight }
    {
        weight_in(self.cells[i * (self.width + 1) + self.width])
    }

    /// How many keys can be added before memory is needed.
    #[inline(always)]
    pub fn spare(&self) -> usize
        ensures { result ≡ self.now.spare }
    {
        self.spare
    }

    /// Makes spare at least this, and no less than it was. A refusal leaves the map and spare as
    /// they were. The room at least doubles where it grows.
    #[inline(always)]
    pub fn reserve(&mut self, more: usize) -> Result<(), NoMemory>
        ensures width { self.new.width ≡ self.old.width }
        ensures nodes { self.new.nodes ≡ self.old.nodes }
        ensures kept { self.old.spare ≤ self.new.spare }
        ensures ok { OnOk result (more ≤ self.new.spare) }
        ensures err { OnErr result (self.new.spare ≡ self.old.spare) }
    {
        if more <= self.spare {
            Ok(())
        } else {
            self.grow(more)
        }
    }

    // Makes room where there is too little. The buckets are changed last, so that a refusal leaves
    // all as it was.
    #[inline(never)]
    fn grow(&mut self, more: usize) -> Result<(), NoMemory>
        ensures width { self.new.width ≡ self.old.width }
        ensures nodes { self.new.nodes ≡ self.old.nodes }
        ensures kept { self.old.spare ≤ self.new.spare }
        ensures ok { OnOk result (more ≤ self.new.spare) }
        ensures err { OnErr result (self.new.spare ≡ self.old.spare) }
    {
        let count = self.slots.len();
        let size = match size_for(self.buckets.len(), count, more) {
            Some(size) => size,
            None => return Err(NoMemory),
        };
        let spare = size / 2 - count;
        self.cells.reserve(spare * (self.width + 1))?;
        self.slots.reserve(spare)?;
        let mut buckets = vec![in self.alloc; 0u32; size]?;
        rehash(self.width, &self.cells, &mut self.slots, &mut buckets);
        self.buckets = buckets;
        self.spare = spare;
        Ok(())
    }

    /// Adds a weight to a key's, which is 0 where the key is not held. A new key lowers spare by 1.
    #[inline(always)]
    pub fn add(&mut self, key: &[i128], weight: C)
        requires wide { length key.now ≡ self.old.width }
        requires room { is_held self.old.nodes key.now ≡ false → 1 ≤ self.old.spare }
        requires fits { weight_in self.old.nodes key.now + C.number weight ≤ C.LIMIT }
        ensures width { self.new.width ≡ self.old.width }
        ensures merged { IsMerge self.old.nodes key.now (C.number weight) self.new.nodes }
        ensures spare { let held = is_held self.old.nodes key.now in
            self.new.spare ≡ (if held then self.old.spare else self.old.spare - 1) }
    {
        let _place = self.enter(key, weight);
    }

    /// The same, and answers the key's place. A held key keeps its place until the pool is emptied.
    #[inline(always)]
    pub fn enter(&mut self, key: &[i128], weight: C) -> usize
        requires wide { length key.now ≡ self.old.width }
        requires room { is_held self.old.nodes key.now ≡ false → 1 ≤ self.old.spare }
        requires fits { weight_in self.old.nodes key.now + C.number weight ≤ C.LIMIT }
        ensures width { self.new.width ≡ self.old.width }
        ensures merged { IsMerge self.old.nodes key.now (C.number weight) self.new.nodes }
        ensures spare { let held = is_held self.old.nodes key.now in
            self.new.spare ≡ (if held then self.old.spare else self.old.spare - 1) }
        ensures placed { IsPlaced self.old.nodes key.now self.new.nodes result }
    {
        match find(self.width, &self.cells, &self.slots, &self.buckets, key) {
            Found::At(place) => {
                let behind = place * (self.width + 1) + self.width;
                raise(&mut self.cells, behind, weight);
                place
            }
            Found::Free(slot) => {
                self.buckets[slot] = self.slots.len() as u32 + 1;
                self.spare -= 1;
                put(
                    &mut self.slots,
                    &mut self.cells,
                    slot,
                    key,
                    number_for(weight),
                )
            }
        }
    }

    /// Empties the map, in steps that its length bounds, and makes its room spare.
    pub fn clear(&mut self)
        ensures width { self.new.width ≡ self.old.width }
        ensures nodes { self.new.nodes ≡ [] }
        ensures spare { length self.old.nodes + self.old.spare ≤ self.new.spare }
    {
        clear_buckets(&self.slots, &mut self.buckets);
        self.spare += self.slots.len();
        self.slots.clear();
        self.cells.clear();
    }
}
