// A sweep from the first key to a stage, by rows of cells to there where these serve.
ghost use Rattle.std.specs.Prelude.{◌≡◌, ◌≤◌, OnOk, IfOk};
ghost use Rattle.weights.specs.declared.tails.Tail.{Tail};
ghost use Rattle.networks.specs.Completions.{total_weight};
ghost use Rattle.networks.specs.EachTail.{sum_for};
ghost use Rattle.networks.specs.Shifts.{IsShifting};
ghost use Rattle.stage_network.specs.SweepSteps.{IsSweeping, first_course};

use crate::nodes::StageNodes;
use crate::rooms::RoomPool;
use crate::row_ends::nodes_of;
use crate::row_sweeps::RowSweep;
use crate::stage_arcs::StageArcs;
use crate::stops::Stop;
use crate::sweep::Sweep;
use networks::{Kept, Roomed, Stages, TailSums};
use std::alloc::Global;
use weights::{Count, NoMemory};

// No tail has more open keys than one stage can have.
fn check_few(sums: TailSums) -> Result<(), Stop>
    ensures { OnOk result ((t : Tail) → (sum_for sums t).opened ≤ 18446744073709551615) }
{
    let most = sums
        .less
        .opened
        .max(sums.greater.opened)
        .max(sums.two.opened);
    if most <= u64::MAX as u128 {
        Ok(())
    } else {
        Err(Stop::Thin)
    }
}

// The same by rows of cells alone.
fn sweep_rows_to<C: Count, S: Roomed>(
    alloc: Global,
    stages: &S,
    keep: Kept,
    to: usize,
) -> Result<Sweep<C>, Stop>
    requires shifting { let n = S.Stages.network stages.now in
        let width = S.room_width stages.now in
        IsShifting n width (S.step_width stages.now) (S.step_of stages.now) }
    requires limit { let n = S.Stages.network stages.now in total_weight n 0 n.first ≤ C.LIMIT }
    requires last { to ≤ (S.Stages.network stages.now).count }
    ensures sweeping { let n = S.Stages.network stages.now in
        IfOk result (IsSweeping n (S.room_width stages.now) (S.step_width stages.now) C.LIMIT
        (first_course n keep)) }
    ensures stage { IfOk result (λ sweep. sweep.stage ≡ to) }
{
    let width = stages.room_width();
    let mut sweep = RowSweep::<C>::new(alloc, stages, keep)?;
    sweep.advance_to(stages, to)?;
    check_few(sweep.sums)?;
    let pool = RoomPool::<C>::new(alloc, stages)?;
    let arcs = StageArcs::new(alloc, stages)?;
    let nodes = nodes_of(alloc, &sweep.rows)?;
    Ok(Sweep {
        keep,
        stage: to,
        sums: sweep.sums,
        nodes,
        ahead: StageNodes::new(alloc, width, 1),
        arcs,
        pool,
    })
}

/// A sweep from the first key that stands at a stage. It may go on from there with its nodes.
pub fn sweep_to<C: Count, S: Roomed>(
    alloc: Global,
    stages: &S,
    keep: Kept,
    to: usize,
) -> Result<Sweep<C>, NoMemory>
    requires limit { let n = S.Stages.network stages.now in total_weight n 0 n.first ≤ C.LIMIT }
    requires last { to ≤ (S.Stages.network stages.now).count }
    ensures sweeping { let n = S.Stages.network stages.now in
        IfOk result (IsSweeping n (S.room_width stages.now) (S.step_width stages.now) C.LIMIT
        (first_course n keep)) }
    ensures stage { IfOk result (λ sweep. sweep.stage ≡ to) }
{
    if stages.is_shift() {
        if let Ok(sweep) = sweep_rows_to::<C, S>(alloc, stages, keep, to) {
            return Ok(sweep);
        }
    }
    let mut sweep = Sweep::<C>::new(alloc, stages, keep)?;
    sweep.advance_to(stages, to)?;
    Ok(sweep)
}
