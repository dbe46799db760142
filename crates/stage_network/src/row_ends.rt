// The nodes of the last stage, out of rows of cells.
ghost use Rattle.std.specs.Prelude.{◌≡◌, ℕ, ℤ, pos, ◌+◌, ◌≤◌, Bool, cond, List, [], ◌∷◌, ◌++◌};
ghost use Rattle.std.specs.Prelude.{length, map, OnOk, IfOk, IfSome};
ghost use Rattle.weights.specs.declared.TheConstants.{MAX};
ghost use Rattle.node_pool.specs.Nodes.{weighted};
ghost use Rattle.count_arrays.specs.Rows.{row_nodes, stepped};
ghost use Rattle.networks.specs.Completions.{total_weight, ending_weight};
ghost use Rattle.stage_network.specs.NodeSteps.{AllReached};
ghost use Rattle.stage_network.specs.ArcSteps.{lift};
ghost use Rattle.networks.specs.Shifts.{IsShifting};
ghost use Rattle.stage_network.specs.RowSteps.{all_nodes};

use crate::nodes::StageNodes;
use crate::row_arcs::number_at;
use crate::row_rooms::RoomRows;
use crate::row_sweeps::sweep_rows;
use crate::stops::Stop;
use networks::{Kept, Roomed, Stages};
use std::alloc::Global;
use weights::{Count, NoMemory};

// Adds the node of a cell, where it has one.
fn push_cell<C: Count>(
    lowest: i128,
    stride: u64,
    i: usize,
    cell: C,
    nodes: &mut StageNodes<C>,
) -> Result<(), Stop>
    requires named { 1 ≤ nodes.old.rooms }
    requires wide { nodes.old.room_width + 1 ≡ nodes.old.width }
    ensures room_width { OnOk result (nodes.new.room_width ≡ nodes.old.room_width) }
    ensures width { OnOk result (nodes.new.width ≡ nodes.old.width) }
    ensures room { OnOk result (nodes.new.room ≡ nodes.old.room) }
    ensures named { OnOk result (nodes.new.rooms ≡ nodes.old.rooms) }
    ensures nodes { let first = stepped lowest (pos stride) i in
        let more = lift nodes.old.room (row_nodes first (pos stride) (C.number cell ∷ [])) in
        OnOk result (nodes.new.nodes ≡ nodes.old.nodes ++ more) }
{
    if cell.value() == 0 {
        return Ok(());
    }
    let number = number_at(lowest, stride, i)?;
    nodes.push([number].as_slice(), cell)?;
    Ok(())
}

// Adds those of a row.
fn push_row<C: Count>(
    room: &[i128],
    lowest: i128,
    stride: u64,
    cells: &[C],
    nodes: &mut StageNodes<C>,
) -> Result<(), Stop>
    requires here { length room.now ≡ nodes.old.room_width }
    requires wide { nodes.old.room_width + 1 ≡ nodes.old.width }
    ensures room_width { OnOk result (nodes.new.room_width ≡ nodes.old.room_width) }
    ensures width { OnOk result (nodes.new.width ≡ nodes.old.width) }
    ensures nodes { let row = row_nodes lowest (pos stride) (map C.number cells.now) in
        let more = lift room.now row in
        OnOk result (nodes.new.nodes ≡ nodes.old.nodes ++ more) }
{
    nodes.open(room)?;
    for i in 0..cells.len() {
        push_cell(lowest, stride, i, cells[i], nodes)?;
    }
    Ok(())
}

/// The nodes of rows.
pub fn nodes_of<C: Count>(alloc: Global, rows: &RoomRows<C>) -> Result<StageNodes<C>, Stop>
    ensures room_width { IfOk result (λ nodes. nodes.room_width ≡ rows.now.width) }
    ensures width { IfOk result (λ nodes. nodes.width ≡ rows.now.width + 1) }
    ensures nodes { IfOk result (λ nodes. nodes.nodes ≡ all_nodes rows.now.rows) }
{
    let mut nodes = StageNodes::<C>::new(alloc, rows.width(), 1);
    for i in 0..rows.len() {
        push_row(
            rows.room(i),
            rows.lowest(i),
            rows.stride(i),
            rows.cells(i),
            &mut nodes,
        )?;
    }
    Ok(nodes)
}

// The nodes of the last stage.
fn last_nodes<C: Count, S: Roomed>(alloc: Global, stages: &S) -> Result<StageNodes<C>, Stop>
    requires shifting { let n = S.Stages.network stages.now in
        let width = S.room_width stages.now in
        IsShifting n width (S.step_width stages.now) (S.step_of stages.now) }
    requires limit { let n = S.Stages.network stages.now in total_weight n 0 n.first ≤ C.LIMIT }
    ensures width { IfOk result (λ nodes. nodes.width ≡ (S.Stages.network stages.now).width) }
    ensures reached { let n = S.Stages.network stages.now in
        IfOk result (λ nodes. AllReached n n.count nodes.nodes) }
    ensures fits { IfOk result (λ nodes. weighted (λ k. 1) nodes.nodes ≤ MAX) }
    ensures ends { let n = S.Stages.network stages.now in
        IfOk result (λ nodes. (p : List ℤ → Bool)
        → weighted (λ k. cond (p k) 1 0) nodes.nodes ≡ ending_weight n p) }
{
    let swept = sweep_rows::<C, S>(alloc, stages, Kept::All)?;
    let nodes = nodes_of(alloc, &swept.rows)?;
    Ok(nodes)
}

/// The nodes of the last stage, by rows of cells; None where a room is too thin for a row, or a
/// number too great.
pub fn row_ends<C: Count, S: Roomed>(
    alloc: Global,
    stages: &S,
) -> Result<Option<StageNodes<C>>, NoMemory>
    requires shifting { let n = S.Stages.network stages.now in
        let width = S.room_width stages.now in
        IsShifting n width (S.step_width stages.now) (S.step_of stages.now) }
    requires limit { let n = S.Stages.network stages.now in total_weight n 0 n.first ≤ C.LIMIT }
    ensures width { IfOk result
        (λ some. IfSome some (λ nodes. nodes.width ≡ (S.Stages.network stages.now).width)) }
    ensures reached { let n = S.Stages.network stages.now in
        IfOk result (λ some. IfSome some (λ nodes. AllReached n n.count nodes.nodes)) }
    ensures fits { IfOk result
        (λ some. IfSome some (λ nodes. weighted (λ k. 1) nodes.nodes ≤ MAX)) }
    ensures ends { let n = S.Stages.network stages.now in
        IfOk result (λ some. IfSome some (λ nodes. (p : List ℤ → Bool)
        → weighted (λ k. cond (p k) 1 0) nodes.nodes ≡ ending_weight n p)) }
{
    match last_nodes::<C, S>(alloc, stages) {
        Ok(nodes) => Ok(Some(nodes)),
        Err(Stop::Thin) => Ok(None),
        Err(Stop::NoMemory) => Err(NoMemory),
    }
}
