// A sweep through the stages, room by room, for the asked tails at once: the keys are kept that are
// open for some of these, or every key is.
ghost use Rattle.std.specs.Prelude.{◌≡◌, ◌+◌, ◌<◌, ◌≤◌, OnOk, IfOk};
ghost use Rattle.weights.specs.declared.TheConstants.{MAX};
ghost use Rattle.node_pool.specs.Nodes.{weighted};
ghost use Rattle.networks.specs.Completions.{total_weight};
ghost use Rattle.stage_network.specs.NodeSteps.{AllReached};
ghost use Rattle.stage_network.specs.SweepSteps.{Course, IsSweeping, IsSwept, first_course};

use crate::nodes::StageNodes;
use crate::rooms::RoomPool;
use crate::settling::settle;
use crate::stage_arcs::StageArcs;
use networks::{Kept, Roomed, Stages, TailSums};
use std::alloc::Global;
use std::mem;
use weights::{Count, NoMemory};

/// A sweep that stands at a stage: the nodes there that are kept, and of each asked tail the weight
/// that was closed on the way and how many keys were open. Its stores serve every stage.
#[derive(Drop)]
pub struct Sweep<C: Count> {
    pub keep: Kept,
    pub stage: usize,
    pub sums: TailSums,
    pub nodes: StageNodes<C>,
    pub ahead: StageNodes<C>,
    pub arcs: StageArcs,
    pub pool: RoomPool<C>,
}

impl<C: Count> Sweep<C> {
    /// A sweep that stands at the first key.
    pub fn new<S: Roomed>(alloc: Global, stages: &S, keep: Kept) -> Result<Sweep<C>, NoMemory>
        requires limit { let n = S.Stages.network stages.now in
            total_weight n 0 n.first ≤ C.LIMIT }
        ensures sweeping { let n = S.Stages.network stages.now in
            IfOk result (IsSweeping n (S.room_width stages.now) (S.step_width stages.now) C.LIMIT
            (first_course n keep)) }
        ensures stage { IfOk result (λ sweep. sweep.stage ≡ 0) }
    {
        let _lawful = stages.stages();
        let mut numbers = [0i128; 16];
        let key = &mut numbers[..stages.width()];
        stages.first_key(key);
        Sweep::from_keys(alloc, stages, keep, 0, key, &[1])
    }

    /// Takes the sweep one stage on: the rooms of the next stage are filled, one after another, and
    /// each is settled.
    pub fn advance<S: Roomed>(&mut self, stages: &S) -> Result<(), NoMemory>
        ghost course: { Course }
        requires before { self.old.stage < (S.Stages.network stages.now).count }
        requires sweeping { let n = S.Stages.network stages.now in
            IsSweeping n (S.room_width stages.now) (S.step_width stages.now) C.LIMIT course
            self.old }
        ensures sweeping { let n = S.Stages.network stages.now in
            OnOk result (IsSweeping n (S.room_width stages.now) (S.step_width stages.now) C.LIMIT
            course self.new) }
        ensures stage { OnOk result (self.new.stage ≡ self.old.stage + 1) }
    {
        let _count = stages.stages();
        self.arcs.list(stages, self.stage, &self.nodes)?;
        self.ahead.clear();
        let Sweep {
            keep,
            stage,
            sums,
            nodes,
            ahead,
            arcs,
            pool,
        } = self;
        for target in 0..arcs.rooms.len() {
            pool.fill(stages, *stage, nodes, arcs, target)?;
            let _apart = pool.partials.len();
            *sums = settle(
                stages,
                *stage + 1,
                *keep,
                &pool.partials,
                arcs.rooms.key(target),
                *sums,
                ahead,
            )?;
        }
        mem::swap(nodes, ahead);
        *stage += 1;
        let _held = nodes.len();
        Ok(())
    }

    /// Takes the sweep on to a later stage, or to where it stands.
    pub fn advance_to<S: Roomed>(&mut self, stages: &S, to: usize) -> Result<(), NoMemory>
        ghost course: { Course }
        requires order { self.old.stage ≤ to }
        requires last { to ≤ (S.Stages.network stages.now).count }
        requires sweeping { let n = S.Stages.network stages.now in
            IsSweeping n (S.room_width stages.now) (S.step_width stages.now) C.LIMIT course
            self.old }
        ensures sweeping { let n = S.Stages.network stages.now in
            OnOk result (IsSweeping n (S.room_width stages.now) (S.step_width stages.now) C.LIMIT
            course self.new) }
        ensures stage { OnOk result (self.new.stage ≡ to) }
    {
        while self.stage < to {
            self.advance(stages)?;
        }
        Ok(())
    }
}

/// Sweeps from the first key to the last stage.
pub fn sweep_through<C: Count, S: Roomed>(
    alloc: Global,
    stages: &S,
    keep: Kept,
) -> Result<Sweep<C>, NoMemory>
    requires limit { let n = S.Stages.network stages.now in total_weight n 0 n.first ≤ C.LIMIT }
    ensures swept { let n = S.Stages.network stages.now in
        IfOk result (λ all. IsSwept n keep all.sums all.nodes.nodes) }
    ensures wide { IfOk result (λ all. all.nodes.width ≡ (S.Stages.network stages.now).width) }
    ensures reached { let n = S.Stages.network stages.now in
        IfOk result (λ all. AllReached n n.count all.nodes.nodes) }
    ensures fits { IfOk result (λ all. weighted (λ k. 1) all.nodes.nodes ≤ MAX) }
{
    let count = stages.stages();
    let mut sweep = Sweep::<C>::new(alloc, stages, keep)?;
    sweep.advance_to(stages, count)?;
    Ok(sweep)
}
