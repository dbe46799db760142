// Keys of a stage that are laid flat, as rows of cells: those of one room that ascend are one row.
ghost use Rattle.std.specs.Prelude.{◌≡◌, ℕ, pos, ◌+◌, ◌*◌, ◌-◌, ◌<◌, ◌≤◌, [], ◌∷◌, ◌++◌, true};
ghost use Rattle.std.specs.Prelude.{length, take, map, OnOk, IfOk};
ghost use Rattle.weights.specs.declared.tails.Tail.{Tail};
ghost use Rattle.node_pool.specs.Nodes.{node, weighted};
ghost use Rattle.node_pool.specs.PoolSteps.{nodes_of};
ghost use Rattle.node_pool.specs.TableSteps.{key_at};
ghost use Rattle.count_arrays.specs.Rows.{row_nodes};
ghost use Rattle.networks.specs.EachTail.{sum_for};
ghost use Rattle.networks.specs.Shifts.{IsShifting};
ghost use Rattle.stage_network.specs.ArcSteps.{lift};
ghost use Rattle.stage_network.specs.FromKeys.{AreStarts};
ghost use Rattle.stage_network.specs.NodeSteps.{AllHeavy};
ghost use Rattle.stage_network.specs.RowSteps.{all_nodes};
ghost use Rattle.stage_network.specs.RowSweeps.{IsRoomRow, row_partials};
ghost use Rattle.stage_network.specs.SweepSteps.{closed_at, counted, staying};

use crate::nodes::is_same;
use crate::row_filling::RoomRow;
use crate::row_plans::{Plan, are_thick, note, plan_of, room_plan};
use crate::row_rooms::RoomRows;
use crate::stops::Stop;
use count_arrays::place_of;
use networks::{Kept, Roomed, Stages, TailSums, front};
use node_pool::key_at;
use std::alloc::Global;
use weights::Count;

// The number behind the room of a key.
fn number_behind(key: &[i128], width: usize) -> i128
    requires { length key.now ≡ width + 1 }
    ensures { key.now ≡ take width key.now ++ result ∷ [] }
{
    key[width]
}

// Whether a key has the room of the one before it, and a greater number.
fn ascends(width: usize, key_width: usize, keys: &[i128], i: usize) -> bool
    requires wide { key_width ≡ width + 1 }
    requires some { 0 < i }
    requires within { i * key_width + key_width ≤ length keys.now }
    ensures { result ≡ true → take width (key_at key_width keys.now i)
        ≡ take width (key_at key_width keys.now (i - 1)) }
{
    let before = key_at(key_width, keys, i - 1);
    let key = key_at(key_width, keys, i);
    is_same(front(key, width), front(before, width))
        && number_behind(before, width) < number_behind(key, width)
}

// Where the keys end that make one row with this one.
fn row_end(width: usize, key_width: usize, keys: &[i128], count: usize, start: usize) -> usize
    requires wide { key_width ≡ width + 1 }
    requires long { length keys.now ≡ count * key_width }
    requires some { start < count }
    ensures after { start < result }
    ensures within { result ≤ count }
    ensures same { (i : ℕ) → start ≤ i → i < result → take width (key_at key_width keys.now i)
        ≡ take width (key_at key_width keys.now start) }
{
    let mut end = start + 1;
    while end < count && ascends(width, key_width, keys, end) {
        end += 1;
    }
    end
}

// Plans the row of each room, where all are thick enough.
fn plan_rows(
    alloc: Global,
    width: usize,
    key_width: usize,
    keys: &[i128],
    count: usize,
) -> Result<Vec<Plan>, Stop>
    requires wide { key_width ≡ width + 1 }
    requires long { length keys.now ≡ count * key_width }
{
    let mut plans = Vec::new(alloc);
    for i in 0..count {
        let rows = plans.len();
        let goes_on = i != 0 && ascends(width, key_width, keys, i);
        let target = if goes_on {
            rows.saturating_sub(1)
        } else {
            rows
        };
        let number = number_behind(key_at(key_width, keys, i), width);
        match plan_of(number, 1, 1) {
            Some(plan) => note(&mut plans, target, plan, 0)?,
            None => return Err(Stop::Thin),
        }
    }
    if are_thick(&plans) {
        Ok(plans)
    } else {
        Err(Stop::Thin)
    }
}

// Adds the cell of a number, which lies behind those of the row, and empty ones before it.
fn push_number<C: Count>(
    lowest: i128,
    stride: u64,
    none: C,
    number: i128,
    weight: u128,
    cells: &mut Vec<C>,
) -> Result<(), Stop>
    requires none { C.number none ≡ 0 }
    requires some { 1 ≤ weight }
    ensures { OnOk result (row_nodes lowest (pos stride) (map C.number cells.new.items)
        ≡ row_nodes lowest (pos stride) (map C.number cells.old.items)
        ++ node (number ∷ []) weight ∷ []) }
{
    let place = match place_of(lowest, stride, number) {
        Some(place) => place,
        None => return Err(Stop::Thin),
    };
    if place < cells.len() {
        return Err(Stop::Thin);
    }
    let cell = match C::of(weight) {
        Some(cell) => cell,
        None => return Err(Stop::Thin),
    };
    cells.resize(place, none)?;
    cells.push(cell)?;
    Ok(())
}

// Makes it the row of keys of one room, from a place to before another.
fn write_row<C: Count>(
    width: usize,
    key_width: usize,
    keys: &[i128],
    weights: &[u128],
    start: usize,
    end: usize,
    lowest: i128,
    stride: u64,
    row: &mut RoomRow<C>,
) -> Result<(), Stop>
    requires ready { IsRoomRow C.number row.old }
    requires apart { 0 < stride }
    requires wide { key_width ≡ width + 1 }
    requires long { length keys.now ≡ length weights.now * key_width }
    requires order { start ≤ end }
    requires within { end ≤ length weights.now }
    requires heavy { AllHeavy (nodes_of key_width keys.now weights.now) }
    requires same { (i : ℕ) → start ≤ i → i < end → take width (key_at key_width keys.now i)
        ≡ take width (key_at key_width keys.now start) }
    ensures ready { OnOk result (IsRoomRow C.number row.new) }
    ensures nodes { let room = take width (key_at key_width keys.now start) in
        let all = nodes_of key_width keys.now weights.now in
        OnOk result (take end all ≡ take start all ++ lift room (row_partials C.number row.new)) }
{
    row.lowest = lowest;
    row.stride = stride;
    row.cells.clear();
    let none = row.none;
    for i in start..end {
        let number = number_behind(key_at(key_width, keys, i), width);
        push_number(lowest, stride, none, number, weights[i], &mut row.cells)?;
    }
    Ok(())
}

/// Settles keys of a stage, row after row.
pub fn settle_rows<C: Count, S: Roomed>(
    alloc: Global,
    stages: &S,
    keep: Kept,
    stage: usize,
    keys: &[i128],
    weights: &[u128],
    row: &mut RoomRow<C>,
    kept: &mut RoomRows<C>,
) -> Result<TailSums, Stop>
    requires shifting { let n = S.Stages.network stages.now in
        IsShifting n (S.room_width stages.now) (S.step_width stages.now) (S.step_of stages.now) }
    requires starts { AreStarts (S.Stages.network stages.now) stage keys.now weights.now }
    requires ready { IsRoomRow C.number row.old }
    requires here { kept.old.width ≡ S.room_width stages.now }
    requires empty { kept.old.rows ≡ [] }
    ensures ready { OnOk result (IsRoomRow C.number row.new) }
    ensures width { OnOk result (kept.new.width ≡ S.room_width stages.now) }
    ensures nodes { let n = S.Stages.network stages.now in
        let all = nodes_of n.width keys.now weights.now in
        OnOk result (all_nodes kept.new.rows ≡ staying n keep stage all) }
    ensures sum { let n = S.Stages.network stages.now in
        let all = nodes_of n.width keys.now weights.now in
        IfOk result (λ sums. (t : Tail)
        → (sum_for sums t).sum ≡ weighted (closed_at n keep t stage) all) }
    ensures opened { let n = S.Stages.network stages.now in
        let all = nodes_of n.width keys.now weights.now in
        IfOk result (λ sums. (t : Tail)
        → (sum_for sums t).opened ≡ counted n keep t stage all) }
{
    let _count = stages.stages();
    let width = stages.room_width();
    let key_width = stages.width();
    let count = weights.len();
    let plans = plan_rows(alloc, width, key_width, keys, count)?;
    let mut sums = TailSums::none();
    let mut start = 0usize;
    let mut target = 0usize;
    while start < count {
        let end = row_end(width, key_width, keys, count, start);
        let (lowest, stride, _) = room_plan(&plans, target)?;
        write_row(
            width, key_width, keys, weights, start, end, lowest, stride, row,
        )?;
        let room = front(key_at(key_width, keys, start), width);
        sums = row.settle(stages, stage, keep, room, sums)?;
        row.keep(room, kept)?;
        start = end;
        target += 1;
    }
    Ok(sums)
}
