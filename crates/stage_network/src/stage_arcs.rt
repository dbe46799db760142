// The arcs of a stage, listed once per room and choice.
ghost use Rattle.std.specs.Prelude.{◌≡◌, ◌<◌, ◌≤◌, length, OnOk, IfOk};
ghost use Rattle.std.specs.List.{Contains};
ghost use Rattle.node_pool.specs.Nodes.{weighted};
ghost use Rattle.node_pool.specs.Pool.{IsPlaced};
ghost use Rattle.networks.specs.Network.{IsReached};
ghost use Rattle.stage_network.specs.ArcSteps.{IsRun};
ghost use Rattle.stage_network.specs.SweepSteps.{AreHere, HasBuffers, AreListed};
ghost use Rattle.stage_network.specs.Listed.{HasArc};

use crate::arcs::Arcs;
use crate::nodes::StageNodes;
use networks::{Roomed, Stages, write_key};
use node_pool::NodePool;
use std::alloc::Global;
use weights::{Count, Narrow, NoMemory};

/// The arcs of a stage and the rooms that they lead to, with buffers for a key, a choice and the
/// room that it leads to.
#[derive(Drop)]
pub struct StageArcs {
    pub rooms: NodePool<Narrow>,
    pub arcs: Arcs,
    pub key: Vec<i128>,
    pub choice: Vec<u64>,
    pub target_room: Vec<i128>,
}

/// Names a room, and answers its place.
#[inline(always)]
pub fn place(rooms: &mut NodePool<Narrow>, room: &[i128]) -> Result<usize, NoMemory>
    requires wide { length room.now ≡ rooms.old.width }
    requires light { weighted (λ k. 1) rooms.old.nodes ≡ 0 }
    ensures width { OnOk result (rooms.new.width ≡ rooms.old.width) }
    ensures light { OnOk result (weighted (λ k. 1) rooms.new.nodes ≡ 0) }
    ensures placed { IfOk result (IsPlaced rooms.old.nodes room.now rooms.new.nodes) }
{
    rooms.reserve(1)?;
    match Narrow::of(0) {
        Some(none) => Ok(rooms.enter(room, none)),
        None => unreachable!(),
    }
}

impl StageArcs {
    /// No arcs, and buffers for a network.
    pub fn new<S: Roomed>(alloc: Global, stages: &S) -> Result<StageArcs, NoMemory>
        ensures { IfOk result (HasBuffers (S.Stages.network stages.now) (S.room_width stages.now)) }
    {
        let _lawful = stages.stages();
        let width = stages.room_width();
        Ok(StageArcs {
            rooms: NodePool::new(alloc, width)?,
            arcs: Arcs::new(alloc, stages.choice_width()),
            key: vec![in alloc; 0i128; stages.width()]?,
            choice: vec![in alloc; 0u64; stages.choice_width()]?,
            target_room: vec![in alloc; 0i128; width]?,
        })
    }

    /// Lists the arc of the key and the choice that are written, and answers the place of its room.
    #[inline(always)]
    pub fn add_arc<S: Roomed>(
        &mut self,
        stages: &S,
        stage: usize,
        start: usize,
        end: usize,
    ) -> Result<usize, NoMemory>
        requires before { stage < (S.Stages.network stages.now).count }
        requires reached { IsReached (S.Stages.network stages.now) stage self.old.key.items }
        requires allowed { let n = S.Stages.network stages.now in
            Contains (n.choices stage self.old.key.items) self.old.choice.items }
        requires fitted { let n = S.Stages.network stages.now in
            HasBuffers n (S.room_width stages.now) self.old }
        requires light { weighted (λ k. 1) self.old.rooms.nodes ≡ 0 }
        requires count { self.old.arcs.rooms ≡ length self.old.rooms.nodes }
        ensures added { let n = S.Stages.network stages.now in
            IfOk result (λ target.
            HasArc n (S.room_width stages.now) stage start end target self.old self.new) }
    {
        let weight = stages.cross(stage, &self.key, &self.choice, &mut self.target_room);
        let target = place(&mut self.rooms, &self.target_room)?;
        self.arcs.push(start, end, weight, &self.choice, target)?;
        Ok(target)
    }

    // Lists those of the nodes of one room.
    fn add_run<C: Count, S: Roomed>(
        &mut self,
        stages: &S,
        stage: usize,
        nodes: &StageNodes<C>,
        start: usize,
        end: usize,
    ) -> Result<(), NoMemory>
        requires here { let n = S.Stages.network stages.now in
            AreHere n (S.room_width stages.now) stage nodes.now }
        requires some { start < end }
        requires within { end ≤ length nodes.now.nodes }
        requires run { IsRun (S.room_width stages.now) nodes.now.nodes start end }
        requires listed { let n = S.Stages.network stages.now in
            AreListed n (S.room_width stages.now) stage nodes.now.nodes start self.old }
        ensures listed { let n = S.Stages.network stages.now in
            OnOk result (AreListed n (S.room_width stages.now) stage nodes.now.nodes end self.new) }
    {
        write_key(nodes.room(start), nodes.partial(start), &mut self.key);
        let mut more = stages.first_choice(stage, &self.key, &mut self.choice);
        while more {
            self.add_arc(stages, stage, start, end)?;
            more = stages.next_choice(stage, &self.key, &mut self.choice);
        }
        Ok(())
    }

    /// Lists those of the nodes of a stage.
    pub fn list<C: Count, S: Roomed>(
        &mut self,
        stages: &S,
        stage: usize,
        nodes: &StageNodes<C>,
    ) -> Result<(), NoMemory>
        requires here { let n = S.Stages.network stages.now in
            AreHere n (S.room_width stages.now) stage nodes.now }
        requires fitted { let n = S.Stages.network stages.now in
            HasBuffers n (S.room_width stages.now) self.old }
        ensures listed { let n = S.Stages.network stages.now in
            let all = nodes.now.nodes in
            OnOk result (AreListed n (S.room_width stages.now) stage all (length all) self.new) }
    {
        self.rooms.clear();
        self.arcs.clear();
        let mut start = 0usize;
        while start < nodes.len() {
            let end = nodes.run_end(start);
            self.add_run(stages, stage, nodes, start, end)?;
            start = end;
        }
        Ok(())
    }
}
