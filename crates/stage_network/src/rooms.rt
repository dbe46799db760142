// A room of the next stage, filled with the partials of all nodes that lead there.
ghost use Rattle.std.specs.Prelude.{◌≡◌, ℕ, ℤ, ◌+◌, ◌-◌, ◌*◌, ◌<◌, ◌≤◌, List, [], length};
ghost use Rattle.std.specs.Prelude.{drop, OnOk, IfOk, slice_index_or};
ghost use Rattle.weights.specs.declared.TheConstants.{MAX};
ghost use Rattle.node_pool.specs.Nodes.{Node, weighted};
ghost use Rattle.stage_network.specs.NodeSteps.{AllHeavy};
ghost use Rattle.stage_network.specs.ArcSteps.{AreArcs, IsChoiceOf, IsRun};
ghost use Rattle.stage_network.specs.ArcSteps.{bucket, chosen, lift, segment, spread_out};
ghost use Rattle.stage_network.specs.SweepSteps.{AreHere, IsFitted, IsWithin};

use crate::arcs::Arcs;
use crate::links::Link;
use crate::nodes::StageNodes;
use crate::stage_arcs::StageArcs;
use networks::{Roomed, Stages};
use node_runs::{Lead, RunPool, add_loose, add_or_keep};
use std::alloc::Global;
use weights::{Count, NoMemory};

/// The partials of one room, with those that did not ascend within the run that is added, and
/// buffers for a step and for the partial that it leads to.
#[derive(Drop)]
pub struct RoomPool<C: Count> {
    pub partials: RunPool<C>,
    pub loose: Vec<Lead<C>>,
    pub step: Vec<i128>,
    pub next: Vec<i128>,
}

// The partials that no more arcs than these lead to are merged, and not hashed.
const FEW: usize = 16;

// Whether few arcs lead to a room.
fn has_few(arcs: &Arcs, target: usize) -> bool
    requires { target < arcs.now.rooms }
{
    let mut place = arcs.first(target);
    for _ in 0..FEW {
        if place == 0 {
            return true;
        }
        place = arcs.arc(place - 1).next;
    }
    place == 0
}

// A count times an arc's weight.
#[inline(always)]
fn scaled<C: Count>(weight: C, arc: u128) -> C
    requires limit { C.number weight * arc ≤ C.LIMIT }
    requires fits { C.number weight * arc ≤ MAX }
    ensures { C.number result ≡ C.number weight * arc }
{
    match C::of(weight.value() * arc) {
        Some(product) => product,
        None => unreachable!(),
    }
}

impl<C: Count> RoomPool<C> {
    /// No partials, and buffers for a network.
    pub fn new<S: Roomed>(alloc: Global, stages: &S) -> Result<RoomPool<C>, NoMemory>
        ensures fitted { let n = S.Stages.network stages.now in
            IfOk result (IsFitted n (S.room_width stages.now) (S.step_width stages.now)) }
        ensures empty { IfOk result (λ pool. pool.partials.nodes ≡ []) }
    {
        let _lawful = stages.stages();
        let width = stages.width() - stages.room_width();
        Ok(RoomPool {
            partials: RunPool::new(alloc, width)?,
            loose: Vec::new(alloc),
            step: vec![in alloc; 0i128; stages.step_width()]?,
            next: vec![in alloc; 0i128; width]?,
        })
    }

    // Adds the partials that a choice reaches from the nodes of one room.
    #[inline(always)]
    fn pour<S: Roomed>(
        &mut self,
        stages: &S,
        stage: usize,
        nodes: &StageNodes<C>,
        arc: Link,
        choice: &[u64],
    ) -> Result<(), NoMemory>
        requires here { let n = S.Stages.network stages.now in
            AreHere n (S.room_width stages.now) stage nodes.now }
        requires run { IsRun (S.room_width stages.now) nodes.now.nodes arc.start arc.end }
        requires chosen { let n = S.Stages.network stages.now in
            IsChoiceOf n stage nodes.now.nodes arc.start arc.end choice.now arc.weight }
        requires choice { length choice.now ≡ (S.Stages.network stages.now).choice_width }
        requires fitted { let n = S.Stages.network stages.now in
            IsFitted n (S.room_width stages.now) (S.step_width stages.now) self.old }
        requires light { let n = S.Stages.network stages.now in
            let new = chosen n stage choice.now (segment arc.start arc.end nodes.now.nodes) in
            IsWithin C.LIMIT
            (weighted (λ k. 1) self.old.partials.nodes + weighted (λ k. 1) new) }
        ensures fitted { let n = S.Stages.network stages.now in
            OnOk result
            (IsFitted n (S.room_width stages.now) (S.step_width stages.now) self.new) }
        ensures heavy { OnOk result
            (AllHeavy self.old.partials.nodes → AllHeavy self.new.partials.nodes) }
        ensures told { let n = S.Stages.network stages.now in
            let new = chosen n stage choice.now (segment arc.start arc.end nodes.now.nodes) in
            OnOk result ((f : List ℤ → ℕ) → weighted f self.new.partials.nodes
            ≡ weighted f self.old.partials.nodes
            + weighted (λ k. f (drop (S.room_width stages.now) k)) new) }
    {
        let room = nodes.room(arc.start);
        stages.step(stage, room, choice, &mut self.step);
        self.loose.clear();
        self.partials.begin_run()?;
        for i in arc.start..arc.end {
            stages.advance(
                stage,
                room,
                choice,
                &self.step,
                nodes.partial(i),
                &mut self.next,
            );
            add_or_keep(
                &mut self.partials,
                &mut self.loose,
                &self.next,
                scaled(nodes.weight(i), arc.weight),
            )?;
        }
        add_loose(&mut self.loose, &mut self.partials)?;
        Ok(())
    }

    /// Fills a room of the next stage with the partials of all nodes that lead there.
    pub fn fill<S: Roomed>(
        &mut self,
        stages: &S,
        stage: usize,
        nodes: &StageNodes<C>,
        all: &StageArcs,
        target: usize,
    ) -> Result<(), NoMemory>
        requires here { let n = S.Stages.network stages.now in
            AreHere n (S.room_width stages.now) stage nodes.now }
        requires arcs { let n = S.Stages.network stages.now in
            let width = S.room_width stages.now in
            AreArcs n stage width nodes.now.nodes all.now.rooms.nodes all.now.arcs }
        requires target { target < length all.now.rooms.nodes }
        requires fitted { let n = S.Stages.network stages.now in
            IsFitted n (S.room_width stages.now) (S.step_width stages.now) self.old }
        requires light { let n = S.Stages.network stages.now in
            let arcs = bucket target all.now.arcs.arcs in
            IsWithin C.LIMIT (weighted (λ k. 1) (spread_out n stage nodes.now.nodes arcs)) }
        ensures fitted { let n = S.Stages.network stages.now in
            OnOk result
            (IsFitted n (S.room_width stages.now) (S.step_width stages.now) self.new) }
        ensures heavy { OnOk result (AllHeavy self.new.partials.nodes) }
        ensures told { let n = S.Stages.network stages.now in
            let arcs = bucket target all.now.arcs.arcs in
            OnOk result ((d : Node) (f : List ℤ → ℕ)
            → weighted f
            (lift (slice_index_or all.now.rooms.nodes target d).key self.new.partials.nodes)
            ≡ weighted f (spread_out n stage nodes.now.nodes arcs)) }
    {
        self.partials.clear(has_few(&all.arcs, target));
        let mut place = all.arcs.first(target);
        while place != 0 {
            let arc = all.arcs.arc(place - 1);
            self.pour(stages, stage, nodes, arc, all.arcs.choice(place - 1))?;
            place = arc.next;
        }
        Ok(())
    }
}
