// The arcs of a stage, by the rooms that they lead to.
ghost use Rattle.std.specs.Prelude.{◌≡◌, ◌+◌, ◌*◌, ◌<◌, ◌≤◌, [], ◌∷◌, ◌++◌, length, take, drop};
ghost use Rattle.std.specs.Prelude.{OnOk, slice_index_or, if◌then◌else◌, ◌==◌};
ghost use Rattle.stage_network.specs.ArcSteps.{Arc, IsPlace};

use crate::links::Link;
use std::alloc::Global;
use std::marker::Model;
use weights::NoMemory;

/// Arcs with their choices, linked by the rooms that they lead to.
#[derive(Drop)]
pub struct Arcs {
    width: usize,
    links: Vec<Link>,
    choices: Vec<u64>,
    heads: Vec<usize>,
}

impl Model for Arcs {
    ghost use Rattle.std.specs.Prelude.{map, length};
    ghost use Rattle.stage_network.specs.ArcSteps.{ArcList, IsArcs, arcs_of};

    ghost Value = { ArcList };

    ghost view = { λ p. record {
      width = p.width;
      arcs = arcs_of p.width p.choices.items p.links.items;
      rooms = length p.heads.items;
    } };

    ghost invariant = { λ p. IsArcs p.width p.choices.items p.links.items p.heads.items };
}

// The choice at a place of a row.
#[inline(always)]
fn choice_at(width: usize, choices: &[u64], i: usize) -> &[u64]
    requires { i * width + width ≤ length choices.now }
    ensures choice { result.now ≡ take width (drop (i * width) choices.now) }
    ensures long { length result.now ≡ width }
{
    let start = i * width;
    &choices[start..start + width]
}

impl Arcs {
    /// No arcs, for choices of this many numbers.
    pub fn new(alloc: Global, width: usize) -> Arcs
        ensures { result ≡ record { width = width; arcs = []; rooms = 0 } }
    {
        Arcs {
            width,
            links: Vec::new(alloc),
            choices: Vec::new(alloc),
            heads: Vec::new(alloc),
        }
    }

    // Makes room for arcs to one more room.
    fn more(&mut self) -> Result<(), NoMemory>
        ensures width { OnOk result (self.new.width ≡ self.old.width) }
        ensures arcs { OnOk result (self.new.arcs ≡ self.old.arcs) }
        ensures rooms { OnOk result (self.new.rooms ≡ self.old.rooms + 1) }
    {
        self.heads.push(0)?;
        Ok(())
    }

    // Adds an arc to a room that has been named.
    fn link(
        &mut self,
        start: usize,
        end: usize,
        weight: u128,
        choice: &[u64],
        target: usize,
    ) -> Result<(), NoMemory>
        requires wide { length choice.now ≡ self.old.width }
        requires target { target < self.old.rooms }
        ensures width { OnOk result (self.new.width ≡ self.old.width) }
        ensures arcs { let arc : Arc = record {
          start = start;
          end = end;
          choice = choice.now;
          weight = weight;
          target = target;
        } in
            OnOk result (self.new.arcs ≡ self.old.arcs ++ arc ∷ []) }
        ensures rooms { OnOk result (self.new.rooms ≡ self.old.rooms) }
    {
        self.links.reserve(1)?;
        self.choices.extend_from_slice(choice)?;
        let next = self.heads[target];
        match self.links.push(Link {
            start,
            end,
            weight,
            target,
            next,
        }) {
            Ok(()) => {}
            Err(_) => unreachable!(),
        }
        self.heads[target] = self.links.len();
        Ok(())
    }

    /// Adds an arc to a room, which is one that has been named or the next one.
    #[inline(always)]
    pub fn push(
        &mut self,
        start: usize,
        end: usize,
        weight: u128,
        choice: &[u64],
        target: usize,
    ) -> Result<(), NoMemory>
        requires wide { length choice.now ≡ self.old.width }
        requires target { target ≤ self.old.rooms }
        ensures width { OnOk result (self.new.width ≡ self.old.width) }
        ensures arcs { let arc : Arc = record {
          start = start;
          end = end;
          choice = choice.now;
          weight = weight;
          target = target;
        } in
            OnOk result (self.new.arcs ≡ self.old.arcs ++ arc ∷ []) }
        ensures rooms { let rooms = self.old.rooms in
            OnOk result (self.new.rooms ≡ (if target == rooms then rooms + 1 else rooms)) }
    {
        if target == self.heads.len() {
            self.more()?;
        }
        self.link(start, end, weight, choice, target)
    }

    /// How many arcs there are.
    pub fn len(&self) -> usize
        ensures { result ≡ length self.now.arcs }
    {
        self.links.len()
    }

    /// Behind the last arc to a room stands this place; 0 where there is none.
    #[inline(always)]
    pub fn first(&self, target: usize) -> usize
        requires { target < self.now.rooms }
        ensures { IsPlace self.now.arcs target (length self.now.arcs) result }
    {
        self.heads[target]
    }

    /// An arc's numbers.
    #[inline(always)]
    pub fn arc(&self, i: usize) -> Link
        requires { i < length self.now.arcs }
        ensures start { (d : Arc) → result.start ≡ (slice_index_or self.now.arcs i d).start }
        ensures last { (d : Arc) → result.end ≡ (slice_index_or self.now.arcs i d).end }
        ensures weight { (d : Arc) → result.weight ≡ (slice_index_or self.now.arcs i d).weight }
        ensures next { (d : Arc)
            → IsPlace self.now.arcs (slice_index_or self.now.arcs i d).target i result.next }
    {
        self.links[i]
    }

    /// An arc's choice.
    #[inline(always)]
    pub fn choice(&self, i: usize) -> &[u64]
        requires { i < length self.now.arcs }
        ensures choice { (d : Arc) → result.now ≡ (slice_index_or self.now.arcs i d).choice }
        ensures wide { length result.now ≡ self.now.width }
    {
        choice_at(self.width, &self.choices, i)
    }

    /// Forgets the arcs. It keeps their memory.
    pub fn clear(&mut self)
        ensures width { self.new.width ≡ self.old.width }
        ensures arcs { self.new.arcs ≡ [] }
        ensures rooms { self.new.rooms ≡ 0 }
    {
        self.links.clear();
        self.choices.clear();
        self.heads.clear();
    }
}
