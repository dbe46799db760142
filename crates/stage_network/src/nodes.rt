// The nodes of one stage, room after room.
ghost use Rattle.std.specs.Prelude.{◌≡◌, ℕ, ◌+◌, ◌<◌, ◌≤◌, [], ◌∷◌, ◌++◌, true, length, take, drop};
ghost use Rattle.std.specs.Prelude.{OnOk, slice_index, slice_index_or};
ghost use Rattle.node_pool.specs.Nodes.{Node, node};
ghost use Rattle.stage_network.specs.ArcSteps.{IsRun};

use node_pool::{NodeList, key_at, push_within};
use std::alloc::Global;
use std::marker::Model;
use weights::{Count, NoMemory};

/// The nodes of one stage. Each room is kept once, and of a node its partial and its room's number.
#[derive(Drop)]
pub struct StageNodes<C: Count> {
    room_width: usize,
    rooms: Vec<i128>,
    count: usize,
    homes: Vec<usize>,
    partials: NodeList<C>,
}

impl<C: Count> Model for StageNodes<C> {
    ghost use Rattle.std.specs.Prelude.{◌+◌, ◌-◌};
    ghost use Rattle.node_pool.specs.TableSteps.{key_at};
    ghost use Rattle.stage_network.specs.StageSteps.{Housed, AreHoused, whole_nodes};

    ghost Value = { Housed };

    ghost view = { λ p. record {
      room_width = p.room_width;
      width = p.room_width + p.partials.width;
      nodes = whole_nodes p.room_width p.rooms.items p.homes.items p.partials.nodes;
      rooms = p.count;
      room = key_at p.room_width p.rooms.items (p.count - 1);
    } };

    ghost invariant = { λ p.
        AreHoused p.room_width p.rooms.items p.count p.homes.items p.partials };
}

// Where the nodes of the room of this one end.
fn same_until(homes: &[usize], start: usize) -> usize
    requires { start < length homes.now }
    ensures after { start < result }
    ensures within { result ≤ length homes.now }
    ensures same { (i : ℕ) → start ≤ i → i < result
        → slice_index homes.now i ≡ slice_index homes.now start }
{
    let mut end = start + 1;
    while end < homes.len() && homes[end] == homes[start] {
        end += 1;
    }
    end
}

/// Whether two rooms are the same.
pub fn is_same(one: &[i128], other: &[i128]) -> bool
    ensures { result ≡ true → one.now ≡ other.now }
{
    one == other
}

impl<C: Count> StageNodes<C> {
    /// No nodes, for rooms and partials of these many numbers.
    pub fn new(alloc: Global, room_width: usize, partial_width: usize) -> StageNodes<C>
        ensures room_width { result.room_width ≡ room_width }
        ensures width { result.width ≡ room_width + partial_width }
        ensures nodes { result.nodes ≡ [] }
    {
        StageNodes {
            room_width,
            rooms: Vec::new(alloc),
            count: 0,
            homes: Vec::new(alloc),
            partials: NodeList::new(alloc, partial_width),
        }
    }

    /// How many nodes there are.
    #[inline(always)]
    pub fn len(&self) -> usize
        ensures { result ≡ length self.now.nodes }
    {
        self.homes.len()
    }

    /// The room of a node.
    #[inline(always)]
    pub fn room(&self, i: usize) -> &[i128]
        requires { i < length self.now.nodes }
        ensures room { (d : Node)
            → result.now ≡ take self.now.room_width (slice_index_or self.now.nodes i d).key }
        ensures wide { length result.now ≡ self.now.room_width }
    {
        key_at(self.room_width, &self.rooms, self.homes[i])
    }

    /// The partial of a node.
    #[inline(always)]
    pub fn partial(&self, i: usize) -> &[i128]
        requires { i < length self.now.nodes }
        ensures partial { (d : Node)
            → result.now ≡ drop self.now.room_width (slice_index_or self.now.nodes i d).key }
        ensures wide { self.now.room_width + length result.now ≡ self.now.width }
    {
        self.partials.key(i)
    }

    /// The weight of a node.
    #[inline(always)]
    pub fn weight(&self, i: usize) -> C
        requires { i < length self.now.nodes }
        ensures { (d : Node) → C.number result ≡ (slice_index_or self.now.nodes i d).weight }
    {
        self.partials.weight(i)
    }

    /// Where the nodes of a node's room end.
    pub fn run_end(&self, start: usize) -> usize
        requires { start < length self.now.nodes }
        ensures after { start < result }
        ensures within { result ≤ length self.now.nodes }
        ensures run { IsRun self.now.room_width self.now.nodes start result }
    {
        same_until(&self.homes, start)
    }

    /// Names the room of the nodes that are added from now on. Where it is the one that was named
    /// last, their run goes on.
    pub fn open(&mut self, room: &[i128]) -> Result<(), NoMemory>
        requires { length room.now ≡ self.old.room_width }
        ensures room_width { OnOk result (self.new.room_width ≡ self.old.room_width) }
        ensures width { OnOk result (self.new.width ≡ self.old.width) }
        ensures nodes { OnOk result (self.new.nodes ≡ self.old.nodes) }
        ensures room { OnOk result (self.new.room ≡ room.now) }
        ensures named { OnOk result (1 ≤ self.new.rooms) }
    {
        if self.count != 0 {
            let last = key_at(self.room_width, &self.rooms, self.count - 1);
            if is_same(last, room) {
                return Ok(());
            }
        }
        let count = match self.count.checked_add(1) {
            Some(count) => count,
            None => return Err(NoMemory),
        };
        self.rooms.extend_from_slice(room)?;
        self.count = count;
        Ok(())
    }

    /// Adds a node of the room that was named last.
    #[inline(always)]
    pub fn push(&mut self, partial: &[i128], weight: C) -> Result<(), NoMemory>
        requires named { 1 ≤ self.old.rooms }
        requires wide { self.old.room_width + length partial.now ≡ self.old.width }
        ensures room_width { OnOk result (self.new.room_width ≡ self.old.room_width) }
        ensures width { OnOk result (self.new.width ≡ self.old.width) }
        ensures nodes { let added = node (self.old.room ++ partial.now) (C.number weight) in
            OnOk result (self.new.nodes ≡ self.old.nodes ++ added ∷ []) }
        ensures room { OnOk result (self.new.room ≡ self.old.room) }
        ensures named { OnOk result (self.new.rooms ≡ self.old.rooms) }
    {
        self.homes.reserve(1)?;
        self.partials.push(partial, weight)?;
        push_within(&mut self.homes, self.count - 1);
        Ok(())
    }

    /// Forgets the nodes and the rooms. It keeps their memory.
    pub fn clear(&mut self)
        ensures room_width { self.new.room_width ≡ self.old.room_width }
        ensures width { self.new.width ≡ self.old.width }
        ensures nodes { self.new.nodes ≡ [] }
    {
        self.rooms.clear();
        self.count = 0;
        self.homes.clear();
        self.partials.clear();
    }
}
