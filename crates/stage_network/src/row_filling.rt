// A room of the next stage, filled from all rows that lead there.
ghost use Rattle.std.specs.Prelude.{◌≡◌, ℕ, ℤ, pos, ◌+◌, ◌*◌, ◌<◌, List, [], ◌∷◌, length};
ghost use Rattle.std.specs.Prelude.{map, replicate, true, OnOk, IfOk, slice_index_or};
ghost use Rattle.node_pool.specs.Nodes.{Node, weighted};
ghost use Rattle.count_arrays.specs.Rows.{row_nodes};
ghost use Rattle.stage_network.specs.ArcSteps.{spread_out, bucket, lift};
ghost use Rattle.stage_network.specs.SweepSteps.{IsWithin};
ghost use Rattle.stage_network.specs.RowSteps.{Row, all_nodes, moved};
ghost use Rattle.stage_network.specs.RowSweeps.{AreRowsHere, AreRowsListed};
ghost use Rattle.stage_network.specs.RowSweeps.{IsRoomRow, row_partials};

use crate::row_arcs::{RowArcs, sum_of};
use crate::row_heads::Shift;
use crate::row_plans::room_plan;
use crate::row_rooms::RoomRows;
use crate::stops::Stop;
use count_arrays::{cells_apart, place_of, pour};
use networks::{Roomed, Stages};
use std::alloc::Global;
use weights::Count;

/// The row of one room: its first cell is for the lowest number, and each other one a stride on.
/// The count of no key clears it.
#[derive(Drop)]
pub struct RoomRow<C: Count> {
    pub none: C,
    pub lowest: i128,
    pub stride: u64,
    pub cells: Vec<C>,
}

// Whether so many cells, each so many places on, end within a row.
fn has_room(place: usize, every: usize, count: usize, len: usize) -> bool
    ensures { result ≡ true → place + every * count < len + every }
{
    if count == 0 {
        return false;
    }
    match every.checked_mul(count - 1) {
        Some(far) => match place.checked_add(far) {
            Some(last) => last < len,
            None => false,
        },
        None => false,
    }
}

// The stride of cells, in place of which another one serves where there is one cell alone.
fn stride_for<C: Count>(cells: &[C], own: u64, other: u64) -> u64
    ensures { (lowest : ℤ) → row_nodes lowest (pos result) (map C.number cells.now)
        ≡ row_nodes lowest (pos own) (map C.number cells.now) }
{
    if cells.len() == 1 { other } else { own }
}

// Pours the cells of a row, which are moved by a step, into another one.
fn pour_row<C: Count>(
    rows: &RoomRows<C>,
    shift: Shift,
    weight: u128,
    lowest: i128,
    stride: u64,
    into: &mut [C],
) -> Result<(), Stop>
    requires row { shift.row < length rows.now.rows }
    requires light { (d : Row) → let from = moved (slice_index_or rows.now.rows shift.row d) in
        IsWithin C.LIMIT
        (weighted (λ k. 1) (row_nodes lowest (pos stride) (map C.number into.old))
        + weighted (λ k. 1) (from shift.step) * weight) }
    ensures long { length into.new ≡ length into.old }
    ensures told { OnOk result ((d : Row) (f : List ℤ → ℕ)
        → let from = moved (slice_index_or rows.now.rows shift.row d) in
        weighted f (row_nodes lowest (pos stride) (map C.number into.new))
        ≡ weighted f (row_nodes lowest (pos stride) (map C.number into.old))
        + weighted f (from shift.step) * weight) }
{
    let from = rows.cells(shift.row);
    let first = sum_of(rows.lowest(shift.row), shift.step)?;
    let place = match place_of(lowest, stride, first) {
        Some(place) => place,
        None => return Err(Stop::Thin),
    };
    let every = match cells_apart(stride_for(from, rows.stride(shift.row), stride), stride) {
        Some(every) => every,
        None => return Err(Stop::Thin),
    };
    if !has_room(place, every, from.len(), into.len()) {
        return Err(Stop::Thin);
    }
    pour(from, weight, place, every, into);
    Ok(())
}

// So many cells of one weight.
fn write_cells<C: Count>(cell: C, len: usize, cells: &mut Vec<C>) -> Result<(), Stop>
    ensures { OnOk result (cells.new.items ≡ replicate len cell) }
{
    cells.clear();
    cells.resize(len, cell)?;
    Ok(())
}

impl<C: Count> RoomRow<C> {
    /// No cells.
    pub fn new(alloc: Global) -> Result<RoomRow<C>, Stop>
        ensures { IfOk result (IsRoomRow C.number) }
    {
        match C::of(0) {
            Some(none) => Ok(RoomRow {
                none,
                lowest: 0,
                stride: 1,
                cells: Vec::new(alloc),
            }),
            None => Err(Stop::Thin),
        }
    }

    /// Fills it, for a room of the next stage, from all rows that lead there.
    pub fn fill<S: Roomed>(
        &mut self,
        stages: &S,
        stage: usize,
        rows: &RoomRows<C>,
        all: &RowArcs,
        target: usize,
    ) -> Result<(), Stop>
        requires ready { IsRoomRow C.number self.old }
        requires here { let n = S.Stages.network stages.now in
            AreRowsHere n (S.room_width stages.now) (S.step_width stages.now)
            (S.step_of stages.now) stage rows.now }
        requires listed { let n = S.Stages.network stages.now in
            let nodes = all_nodes rows.now.rows in
            AreRowsListed n (S.room_width stages.now) (S.step_width stages.now) stage rows.now.rows
            (length nodes) all.now }
        requires target { target < length all.now.listed.rooms.nodes }
        requires light { let n = S.Stages.network stages.now in
            let arcs = bucket target all.now.listed.arcs.arcs in
            let new = spread_out n stage (all_nodes rows.now.rows) arcs in
            IsWithin C.LIMIT (weighted (λ k. 1) new) }
        ensures ready { OnOk result (IsRoomRow C.number self.new) }
        ensures told { let n = S.Stages.network stages.now in
            let arcs = bucket target all.now.listed.arcs.arcs in
            OnOk result ((d : Node) (f : List ℤ → ℕ)
            → weighted f (lift (slice_index_or all.now.listed.rooms.nodes target d).key
            (row_partials C.number self.new))
            ≡ weighted f (spread_out n stage (all_nodes rows.now.rows) arcs)) }
    {
        let (lowest, stride, len) = room_plan(&all.plans, target)?;
        self.lowest = lowest;
        self.stride = stride;
        write_cells(self.none, len, &mut self.cells)?;
        let into = self.cells.as_mut_slice();
        let mut place = all.listed.arcs.first(target);
        while place != 0 {
            let i = place - 1;
            let arc = all.listed.arcs.arc(i);
            let _choice = all.listed.arcs.choice(i);
            pour_row(rows, all.shifts[i], arc.weight, lowest, stride, into)?;
            place = arc.next;
        }
        Ok(())
    }
}
