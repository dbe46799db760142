// A sweep through the stages, room by room, over rows of cells.
ghost use Rattle.std.specs.Prelude.{◌≡◌, ◌+◌, ◌<◌, ◌≤◌, OnOk, IfOk, IfSome};
ghost use Rattle.weights.specs.declared.TheConstants.{MAX};
ghost use Rattle.weights.specs.declared.tails.Tail.{Tail};
ghost use Rattle.node_pool.specs.Nodes.{weighted};
ghost use Rattle.node_pool.specs.PoolSteps.{nodes_of};
ghost use Rattle.networks.specs.Asked.{asked};
ghost use Rattle.networks.specs.Completions.{total_weight, extreme_weight};
ghost use Rattle.networks.specs.Opened.{opened_by_some};
ghost use Rattle.stage_network.specs.NodeSteps.{AllReached};
ghost use Rattle.networks.specs.EachTail.{sum_for};
ghost use Rattle.stage_network.specs.SweepSteps.{Course, IsSwept, first_course};
ghost use Rattle.stage_network.specs.FromKeys.{AreStarts, course_from};
ghost use Rattle.networks.specs.Shifts.{IsShifting};
ghost use Rattle.stage_network.specs.RowSteps.{all_nodes};
ghost use Rattle.stage_network.specs.RowSweeps.{IsRowSweeping};

use crate::row_arcs::RowArcs;
use crate::row_filling::RoomRow;
use crate::row_rooms::RoomRows;
use crate::row_starts::settle_rows;
use crate::stops::Stop;
use networks::{Kept, Roomed, Stages, TailSums};
use std::alloc::Global;
use std::mem;
use weights::{Count, NoMemory, Tails};

/// A sweep over rows that stands at a stage: the rows there that are kept, and of each asked tail
/// the weight that was closed on the way and how many keys were open. Its stores serve every stage.
#[derive(Drop)]
pub struct RowSweep<C: Count> {
    pub keep: Kept,
    pub stage: usize,
    pub sums: TailSums,
    pub rows: RoomRows<C>,
    pub ahead: RoomRows<C>,
    pub arcs: RowArcs,
    pub row: RoomRow<C>,
}

impl<C: Count> RowSweep<C> {
    /// A sweep that stands at the first key.
    pub fn new<S: Roomed>(alloc: Global, stages: &S, keep: Kept) -> Result<RowSweep<C>, Stop>
        requires shifting { let n = S.Stages.network stages.now in
            let width = S.room_width stages.now in
            IsShifting n width (S.step_width stages.now) (S.step_of stages.now) }
        requires limit { let n = S.Stages.network stages.now in
            total_weight n 0 n.first ≤ C.LIMIT }
        ensures sweeping { let n = S.Stages.network stages.now in
            IfOk result (IsRowSweeping n (S.room_width stages.now) (S.step_width stages.now) C.LIMIT
            C.number (first_course n keep)) }
        ensures stage { IfOk result (λ sweep. sweep.stage ≡ 0) }
    {
        let _lawful = stages.stages();
        let mut numbers = [0i128; 16];
        let key = &mut numbers[..stages.width()];
        stages.first_key(key);
        RowSweep::from_keys(alloc, stages, keep, 0, key, &[1])
    }

    /// A sweep that stands at a stage with these keys of it, which lie one after another, and
    /// their weights, as [`crate::Sweep::from_keys`] does.
    pub fn from_keys<S: Roomed>(
        alloc: Global,
        stages: &S,
        keep: Kept,
        stage: usize,
        keys: &[i128],
        weights: &[u128],
    ) -> Result<RowSweep<C>, Stop>
        requires shifting { let n = S.Stages.network stages.now in
            let width = S.room_width stages.now in
            IsShifting n width (S.step_width stages.now) (S.step_of stages.now) }
        requires starts { AreStarts (S.Stages.network stages.now) stage keys.now weights.now }
        requires limit { let n = S.Stages.network stages.now in
            weighted (total_weight n stage) (nodes_of n.width keys.now weights.now) ≤ C.LIMIT }
        ensures sweeping { let n = S.Stages.network stages.now in
            IfOk result (IsRowSweeping n (S.room_width stages.now) (S.step_width stages.now) C.LIMIT
            C.number (course_from n keep stage keys.now weights.now)) }
        ensures stage { IfOk result (λ sweep. sweep.stage ≡ stage) }
    {
        let _count = stages.stages();
        let width = stages.room_width();
        let mut row = RoomRow::<C>::new(alloc)?;
        let mut rows = RoomRows::<C>::new(alloc, width);
        let sums = settle_rows(
            alloc, stages, keep, stage, keys, weights, &mut row, &mut rows,
        )?;
        let arcs = RowArcs::new(alloc, stages)?;
        Ok(RowSweep {
            keep,
            stage,
            sums,
            rows,
            ahead: RoomRows::new(alloc, width),
            arcs,
            row,
        })
    }

    /// Takes the sweep one stage on: the rooms of the next stage are filled, one after another, and
    /// each is settled.
    pub fn advance<S: Roomed>(&mut self, stages: &S) -> Result<(), Stop>
        ghost course: { Course }
        requires before { self.old.stage < (S.Stages.network stages.now).count }
        requires shifting { let n = S.Stages.network stages.now in
            let width = S.room_width stages.now in
            IsShifting n width (S.step_width stages.now) (S.step_of stages.now) }
        requires sweeping { let n = S.Stages.network stages.now in
            IsRowSweeping n (S.room_width stages.now) (S.step_width stages.now) C.LIMIT C.number
            course self.old }
        ensures sweeping { let n = S.Stages.network stages.now in
            OnOk result (IsRowSweeping n (S.room_width stages.now) (S.step_width stages.now) C.LIMIT
            C.number course self.new) }
        ensures stage { OnOk result (self.new.stage ≡ self.old.stage + 1) }
    {
        let _count = stages.stages();
        self.arcs.list(stages, self.stage, &self.rows)?;
        self.ahead.clear();
        let RowSweep {
            keep,
            stage,
            sums,
            rows,
            ahead,
            arcs,
            row,
        } = self;
        for target in 0..arcs.listed.rooms.len() {
            row.fill(stages, *stage, rows, arcs, target)?;
            let room = arcs.listed.rooms.key(target);
            *sums = row.settle(stages, *stage + 1, *keep, room, *sums)?;
            row.keep(room, ahead)?;
        }
        mem::swap(rows, ahead);
        *stage += 1;
        Ok(())
    }

    /// Takes the sweep on to a later stage, or to where it stands.
    pub fn advance_to<S: Roomed>(&mut self, stages: &S, to: usize) -> Result<(), Stop>
        ghost course: { Course }
        requires order { self.old.stage ≤ to }
        requires last { to ≤ (S.Stages.network stages.now).count }
        requires shifting { let n = S.Stages.network stages.now in
            let width = S.room_width stages.now in
            IsShifting n width (S.step_width stages.now) (S.step_of stages.now) }
        requires sweeping { let n = S.Stages.network stages.now in
            IsRowSweeping n (S.room_width stages.now) (S.step_width stages.now) C.LIMIT C.number
            course self.old }
        ensures sweeping { let n = S.Stages.network stages.now in
            OnOk result (IsRowSweeping n (S.room_width stages.now) (S.step_width stages.now) C.LIMIT
            C.number course self.new) }
        ensures stage { OnOk result (self.new.stage ≡ to) }
    {
        while self.stage < to {
            self.advance(stages)?;
        }
        Ok(())
    }
}

/// Sweeps over rows of cells in counts of one width.
pub fn sweep_rows<C: Count, S: Roomed>(
    alloc: Global,
    stages: &S,
    keep: Kept,
) -> Result<RowSweep<C>, Stop>
    requires shifting { let n = S.Stages.network stages.now in
        IsShifting n (S.room_width stages.now) (S.step_width stages.now) (S.step_of stages.now) }
    requires limit { let n = S.Stages.network stages.now in total_weight n 0 n.first ≤ C.LIMIT }
    ensures swept { let n = S.Stages.network stages.now in
        IfOk result (λ all. IsSwept n keep all.sums (all_nodes all.rows.rows)) }
    ensures wide { IfOk result (λ all. all.rows.width ≡ S.room_width stages.now) }
    ensures reached { let n = S.Stages.network stages.now in
        IfOk result (λ all. AllReached n n.count (all_nodes all.rows.rows)) }
    ensures fits { IfOk result (λ all. weighted (λ k. 1) (all_nodes all.rows.rows) ≤ MAX) }
{
    let count = stages.stages();
    let mut sweep = RowSweep::<C>::new(alloc, stages, keep)?;
    sweep.advance_to(stages, count)?;
    Ok(sweep)
}

/// The sums of the asked tails in counts of one width, by rows of cells; None where a room is too
/// thin for a row, or a number too great.
pub fn row_sums<C: Count, S: Roomed>(
    alloc: Global,
    stages: &S,
    tails: Tails,
) -> Result<Option<TailSums>, NoMemory>
    requires shifting { let n = S.Stages.network stages.now in
        let width = S.room_width stages.now in
        IsShifting n width (S.step_width stages.now) (S.step_of stages.now) }
    requires limit { let n = S.Stages.network stages.now in total_weight n 0 n.first ≤ C.LIMIT }
    ensures sum { let n = asked tails (S.Stages.network stages.now) in
        IfOk result (λ some. IfSome some (λ all. (t : Tail)
        → (sum_for all t).sum ≡ extreme_weight n t 0 n.first)) }
    ensures opened { let n = asked tails (S.Stages.network stages.now) in
        IfOk result (λ some. IfSome some (λ all. (t : Tail)
        → (sum_for all t).opened ≡ opened_by_some n t n.count)) }
{
    match sweep_rows::<C, S>(alloc, stages, Kept::Open(tails)) {
        Ok(swept) => Ok(Some(swept.sums)),
        Err(Stop::Thin) => Ok(None),
        Err(Stop::NoMemory) => Err(NoMemory),
    }
}
