// How long a row each room of the next stage needs. What is planned here is checked where it is
// used, so nothing is owed of it but that a stride is one.
ghost use Rattle.std.specs.Prelude.{◌<◌, IfOk};

use crate::stops::Stop;
use std::alloc::Global;

/// The numbers of a row to come: from the lowest to the highest, at a stride (0 where there is one
/// number), and how many cells will be poured into it.
#[derive(Clone, Copy, Drop)]
pub struct Plan {
    pub lowest: i128,
    pub highest: i128,
    pub stride: u64,
    pub cells: usize,
}

// A row may have so many cells more than 8 times those that are poured into it, and the rows of a
// stage so many together.
const SPARE_CELLS: usize = 4096;

const STAGE_SPARE_CELLS: usize = 1 << 20;

// The greatest divisor of both, or 1.
fn gcd(a: u64, b: u64) -> u64 {
    let mut great = a;
    let mut small = b;
    for _ in 0..128 {
        if small == 0 {
            return great;
        }
        let rest = great % small;
        great = small;
        small = rest;
    }
    1
}

// The gap between two numbers, where it is not too great.
fn gap(a: i128, b: i128) -> Option<u64> {
    match u64::try_from(a.abs_diff(b)) {
        Ok(gap) => Some(gap),
        Err(_) => None,
    }
}

// The greatest stride of both.
fn common(a: u64, b: u64) -> u64 {
    if a == 1 || b == 1 { 1 } else { gcd(a, b) }
}

/// What is planned for one row alone.
pub fn plan_of(lowest: i128, stride: u64, len: usize) -> Option<Plan> {
    if len == 0 {
        return None;
    }
    let far = (len as i128 - 1).checked_mul(stride as i128)?;
    Some(Plan {
        lowest,
        highest: lowest.checked_add(far)?,
        stride: if len == 1 { 0 } else { stride },
        cells: len,
    })
}

// What is planned for rows that are moved by a step.
fn moved(plan: Plan, step: i128) -> Option<Plan> {
    Some(Plan {
        lowest: plan.lowest.checked_add(step)?,
        highest: plan.highest.checked_add(step)?,
        stride: plan.stride,
        cells: plan.cells,
    })
}

// What is planned for two rows.
fn both(one: Plan, other: Plan) -> Option<Plan> {
    let apart = gap(one.lowest, other.lowest)?;
    Some(Plan {
        lowest: one.lowest.min(other.lowest),
        highest: one.highest.max(other.highest),
        stride: common(common(one.stride, other.stride), apart),
        cells: one.cells.checked_add(other.cells)?,
    })
}

// How many cells the row has, where that can be.
fn length_of(plan: Plan) -> Option<usize> {
    let far = gap(plan.lowest, plan.highest)?;
    let last = if plan.stride == 0 {
        0
    } else {
        far / plan.stride
    };
    match usize::try_from(last) {
        Ok(last) => last.checked_add(1),
        Err(_) => None,
    }
}

// How many of its cells are more than 8 times those that will be poured into it, where these are
// not too many.
fn spare_cells(plan: Plan) -> Option<usize> {
    let len = length_of(plan)?;
    let spare = len.saturating_sub(plan.cells.saturating_mul(8));
    if spare > SPARE_CELLS {
        None
    } else {
        Some(spare)
    }
}

/// Whether each room of a stage is thick enough for a row, and all are together.
pub fn are_thick(plans: &[Plan]) -> bool {
    let mut left = STAGE_SPARE_CELLS;
    for i in 0..plans.len() {
        match spare_cells(plans[i]) {
            Some(spare) if spare <= left => left -= spare,
            Some(_) | None => return false,
        }
    }
    true
}

/// Adds a row, which is moved by a step, to what is planned for a room, which is one that has a
/// plan or the next one.
pub fn note(plans: &mut Vec<Plan>, target: usize, row: Plan, step: i128) -> Result<(), Stop> {
    let plan = match moved(row, step) {
        Some(plan) => plan,
        None => return Err(Stop::Thin),
    };
    if target < plans.len() {
        match both(plans[target], plan) {
            Some(joined) => plans[target] = joined,
            None => return Err(Stop::Thin),
        }
    } else {
        plans.push(plan)?;
    }
    Ok(())
}

// What is planned for a room.
fn planned(plans: &[Plan], target: usize) -> Option<Plan> {
    if target < plans.len() {
        Some(plans[target])
    } else {
        None
    }
}

/// The lowest number of a room's row, its stride, and how many cells it has.
pub fn room_plan(plans: &[Plan], target: usize) -> Result<(i128, u64, usize), Stop>
    ensures { IfOk result (λ plan. 0 < plan.1) }
{
    let plan = match planned(plans, target) {
        Some(plan) => plan,
        None => return Err(Stop::Thin),
    };
    let len = match length_of(plan) {
        Some(len) => len,
        None => return Err(Stop::Thin),
    };
    let stride = if plan.stride == 0 { 1 } else { plan.stride };
    Ok((plan.lowest, stride, len))
}
