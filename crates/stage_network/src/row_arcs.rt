// The arcs of a stage whose nodes are rows, by the rows that they lead from and the rooms that they
// lead to.
ghost use Rattle.std.specs.Prelude.{◌≡◌, ◌+ℤ◌, ◌+◌, ◌*◌, ◌<◌, [], ◌∷◌, ◌++◌, length, take};
ghost use Rattle.std.specs.Prelude.{OnOk, IfOk, pos, slice_index_or};
ghost use Rattle.node_pool.specs.Nodes.{Node};
ghost use Rattle.count_arrays.specs.Rows.{stepped};
ghost use Rattle.stage_network.specs.RowSteps.{IsSpan, all_nodes};
ghost use Rattle.stage_network.specs.RowSweeps.{AreRowsHere, AreRowsListed, HasRowBuffers};

use crate::row_heads::Shift;
use crate::row_plans::{Plan, are_thick, note, plan_of};
use crate::row_rooms::RoomRows;
use crate::stage_arcs::StageArcs;
use crate::stops::Stop;
use count_arrays::{count_keys, first_full};
use networks::{Roomed, Stages, write_key};
use std::alloc::Global;
use weights::{Count, NoMemory};

/// The arcs of a stage whose nodes are rows, each with what it shifts, and what is planned for the
/// row of each room that they lead to; with a buffer for a step.
#[derive(Drop)]
pub struct RowArcs {
    pub listed: StageArcs,
    pub step: Vec<i128>,
    pub shifts: Vec<Shift>,
    pub plans: Vec<Plan>,
}

// How far so many strides reach.
fn far_of(i: usize, stride: u64) -> Result<i128, Stop>
    ensures { IfOk result (λ far. far ≡ pos (i * stride)) }
{
    let far = match (i as u128).checked_mul(stride as u128) {
        Some(far) => far,
        None => return Err(Stop::Thin),
    };
    match i128::try_from(far) {
        Ok(far) => Ok(far),
        Err(_) => Err(Stop::Thin),
    }
}

/// The sum of two numbers.
pub fn sum_of(a: i128, b: i128) -> Result<i128, Stop>
    ensures { IfOk result (λ sum. sum ≡ a +ℤ b) }
{
    match a.checked_add(b) {
        Some(sum) => Ok(sum),
        None => Err(Stop::Thin),
    }
}

/// The number that stands at a place of a row.
pub fn number_at(lowest: i128, stride: u64, i: usize) -> Result<i128, Stop>
    ensures { IfOk result (λ z. z ≡ stepped lowest (pos stride) i) }
{
    let far = far_of(i, stride)?;
    let number = sum_of(lowest, far)?;
    Ok(number)
}

// Adds an arc's shift.
fn push_shift(shifts: &mut Vec<Shift>, row: usize, step: i128) -> Result<(), Stop>
    ensures { let shift : Shift = record { row = row; step = step } in
        OnOk result (shifts.new.items ≡ shifts.old.items ++ shift ∷ []) }
{
    shifts.push(Shift { row, step })?;
    Ok(())
}

// The place behind so many keys.
fn end_of(start: usize, keys: usize) -> Result<usize, Stop>
    ensures { IfOk result (λ end. end ≡ start + keys) }
{
    match start.checked_add(keys) {
        Some(end) => Ok(end),
        None => Err(Stop::Thin),
    }
}

impl RowArcs {
    /// No arcs, and buffers for a network.
    pub fn new<S: Roomed>(alloc: Global, stages: &S) -> Result<RowArcs, NoMemory>
        ensures { let n = S.Stages.network stages.now in
            IfOk result (HasRowBuffers n (S.room_width stages.now) (S.step_width stages.now)) }
    {
        Ok(RowArcs {
            listed: StageArcs::new(alloc, stages)?,
            step: vec![in alloc; 0i128; stages.step_width()]?,
            shifts: Vec::new(alloc),
            plans: Vec::new(alloc),
        })
    }

    // Lists those of the nodes of one row, the first key of which is written.
    fn add_arcs<C: Count, S: Roomed>(
        &mut self,
        stages: &S,
        stage: usize,
        rows: &RoomRows<C>,
        row: usize,
        start: usize,
        end: usize,
    ) -> Result<(), Stop>
        requires here { let n = S.Stages.network stages.now in
            AreRowsHere n (S.room_width stages.now) (S.step_width stages.now)
            (S.step_of stages.now) stage rows.now }
        requires row { row < length rows.now.rows }
        requires span { IsSpan rows.now.rows (S.room_width stages.now) row start end }
        requires key { (d : Node) → self.old.listed.key.items
            ≡ (slice_index_or (all_nodes rows.now.rows) start d).key }
        requires listed { let n = S.Stages.network stages.now in
            AreRowsListed n (S.room_width stages.now) (S.step_width stages.now) stage rows.now.rows
            start self.old }
        ensures listed { let n = S.Stages.network stages.now in
            OnOk result (AreRowsListed n (S.room_width stages.now) (S.step_width stages.now) stage
            rows.now.rows end self.new) }
    {
        let own = match plan_of(rows.lowest(row), rows.stride(row), rows.cells(row).len()) {
            Some(own) => own,
            None => return Err(Stop::Thin),
        };
        let room = rows.room(row);
        let mut more = stages.first_choice(stage, &self.listed.key, &mut self.listed.choice);
        while more {
            let target = self.listed.add_arc(stages, stage, start, end)?;
            stages.step(stage, room, &self.listed.choice, &mut self.step);
            let step = self.step[0];
            push_shift(&mut self.shifts, row, step)?;
            note(&mut self.plans, target, own, step)?;
            more = stages.next_choice(stage, &self.listed.key, &mut self.listed.choice);
        }
        Ok(())
    }

    // Lists those of the nodes of one row, and answers the place behind these.
    fn add_row<C: Count, S: Roomed>(
        &mut self,
        stages: &S,
        stage: usize,
        rows: &RoomRows<C>,
        row: usize,
        start: usize,
    ) -> Result<usize, Stop>
        requires here { let n = S.Stages.network stages.now in
            AreRowsHere n (S.room_width stages.now) (S.step_width stages.now)
            (S.step_of stages.now) stage rows.now }
        requires row { row < length rows.now.rows }
        requires start { start ≡ length (all_nodes (take row rows.now.rows)) }
        requires listed { let n = S.Stages.network stages.now in
            AreRowsListed n (S.room_width stages.now) (S.step_width stages.now) stage rows.now.rows
            start self.old }
        ensures end { IfOk result
            (λ end. end ≡ length (all_nodes (take (row + 1) rows.now.rows))) }
        ensures listed { let n = S.Stages.network stages.now in
            IfOk result (λ end. AreRowsListed n (S.room_width stages.now) (S.step_width stages.now)
            stage rows.now.rows end self.new) }
    {
        let cells = rows.cells(row);
        let end = end_of(start, count_keys(cells))?;
        if start == end {
            return Ok(end);
        }
        let partial = number_at(rows.lowest(row), rows.stride(row), first_full(cells))?;
        write_key(rows.room(row), [partial].as_slice(), &mut self.listed.key);
        self.add_arcs(stages, stage, rows, row, start, end)?;
        Ok(end)
    }

    /// Lists those of the rows of a stage, where the rooms that they lead to are thick enough.
    pub fn list<C: Count, S: Roomed>(
        &mut self,
        stages: &S,
        stage: usize,
        rows: &RoomRows<C>,
    ) -> Result<(), Stop>
        requires here { let n = S.Stages.network stages.now in
            AreRowsHere n (S.room_width stages.now) (S.step_width stages.now)
            (S.step_of stages.now) stage rows.now }
        requires fitted { let n = S.Stages.network stages.now in
            HasRowBuffers n (S.room_width stages.now) (S.step_width stages.now) self.old }
        ensures listed { let n = S.Stages.network stages.now in
            let all = rows.now.rows in
            OnOk result (AreRowsListed n (S.room_width stages.now) (S.step_width stages.now) stage
            all (length (all_nodes all)) self.new) }
    {
        self.listed.rooms.clear();
        self.listed.arcs.clear();
        self.shifts.clear();
        self.plans.clear();
        let mut start = 0usize;
        for row in 0..rows.len() {
            start = self.add_row(stages, stage, rows, row, start)?;
        }
        if are_thick(&self.plans) {
            Ok(())
        } else {
            Err(Stop::Thin)
        }
    }
}
