// The numerator of the tail on both sides of a table that is not of 2 by 2: a sweep to the last two
// columns, and what completes the tables there.
ghost use Rattle.std.specs.Prelude.{◌≡◌, ◌+◌, ◌≤◌, false, length, true, IfOk};
ghost use Rattle.weights.specs.declared.tails.Tail.{Tail};
ghost use Rattle.weights.specs.declared.tails.Tail.TheVariants.{Two};
ghost use Rattle.weights.specs.declared.TheConstants.{MAX};
ghost use Rattle.weights.specs.Conditional.{numerator};
ghost use Rattle.node_pool.specs.Nodes.{weighted};
ghost use Rattle.networks.specs.Asked.{asks};
ghost use Rattle.networks.specs.Completions.{extreme_weight, total_weight};
ghost use Rattle.networks.specs.EachTail.{sum_for};
ghost use Rattle.table_sums.specs.Tables.{is_two_by_two};
ghost use Rattle.fisher_test.specs.FisherExact.{fisher_test};
ghost use Rattle.fisher_test.specs.LastSteps.{IsFirstHalf, IsHalfBeforeLast, weight_network};
ghost use Rattle.fisher_test.specs.SortedWeighing.{sorted_meaning};

use crate::fisher_table::FisherTable;
use crate::last_columns::{FirstHalf, LastColumns};
use crate::sorted_weights::SortedStages;
use networks::{Kept, Roomed, Stages, TailSum, only};
use stage_network::{Sweep, Width, width_of};
use std::alloc::Global;
use weights::{Count, Narrow, NoMemory, Tail, Tails, Wide};

// The first half of a network, up to a stage.
fn half_to<C: Count, S: Roomed>(
    alloc: Global,
    stages: &S,
    tails: Tails,
    to: usize,
) -> Result<FirstHalf<C>, NoMemory>
    requires last { to ≤ (S.Stages.network stages.now).count }
    requires limit { let n = S.Stages.network stages.now in total_weight n 0 n.first ≤ C.LIMIT }
    ensures stage { IfOk result (λ half. half.stage ≡ to) }
    ensures meeting { let n = S.Stages.network stages.now in
        IfOk result (λ half. IsFirstHalf n (S.room_width stages.now) C.LIMIT half.stage
        half.nodes half.closed) }
    ensures whole { let n = S.Stages.network stages.now in
        IfOk result (λ half. (t : Tail) → asks tails t ≡ true
        → (sum_for half.closed t).sum + weighted (extreme_weight n t half.stage) half.nodes.nodes
        ≡ extreme_weight n t 0 n.first) }
{
    let mut sweep = Sweep::<C>::new(alloc, stages, Kept::Open(tails))?;
    sweep.advance_to(stages, to)?;
    let Sweep {
        stage,
        nodes,
        sums,
        ..
    } = sweep;
    Ok(FirstHalf {
        stage,
        nodes,
        closed: sums,
    })
}

// The weight of the extreme tables, in counts of one width.
fn sum_in<C: Count>(
    alloc: Global,
    stages: &SortedStages,
    last: &LastColumns,
) -> Result<u128, NoMemory>
    requires same { let own = stages.now.1.measure in
        sorted_meaning own.rows.items own.columns.items own.judge
        ≡ sorted_meaning last.now.rooms.rows.items last.now.rooms.columns.items last.now.judge }
    requires limit { let n = weight_network last.now.rooms.rows.items
        last.now.rooms.columns.items last.now.judge in total_weight n 0 n.first ≤ C.LIMIT }
    ensures { let n = weight_network last.now.rooms.rows.items
        last.now.rooms.columns.items last.now.judge in
        IfOk result (λ sum. sum ≡ extreme_weight n Two 0 n.first) }
{
    let before = stages.stages() - 2;
    let half = half_to::<C, SortedStages>(alloc, stages, only(Tail::Two), before)?;
    let sum = last.sum::<C>(alloc, &half)?;
    Ok(sum)
}

// The same in counts that serve for the number of all labellings.
fn sum_of(
    alloc: Global,
    stages: &SortedStages,
    last: &LastColumns,
    total: u128,
) -> Result<u128, NoMemory>
    requires same { let own = stages.now.1.measure in
        sorted_meaning own.rows.items own.columns.items own.judge
        ≡ sorted_meaning last.now.rooms.rows.items last.now.rooms.columns.items last.now.judge }
    requires total { let n = weight_network last.now.rooms.rows.items
        last.now.rooms.columns.items last.now.judge in total ≡ total_weight n 0 n.first }
    requires fits { total ≤ MAX }
    ensures { let n = weight_network last.now.rooms.rows.items
        last.now.rooms.columns.items last.now.judge in
        IfOk result (λ sum. sum ≡ extreme_weight n Two 0 n.first) }
{
    match width_of(total) {
        Width::Narrow => sum_in::<Narrow>(alloc, stages, last),
        Width::Wide => sum_in::<Wide>(alloc, stages, last),
    }
}

/// The numerator of the tail on both sides of a table that is not of 2 by 2.
pub(crate) fn sorted_sum(alloc: Global, table: &FisherTable) -> Result<TailSum, NoMemory>
    requires { is_two_by_two table.now ≡ false }
    ensures { let sum = numerator (fisher_test table.now) Two in
        IfOk result (λ found. found.sum ≡ sum) }
{
    let made = table.made();
    table.facts();
    let stages = table.by_sorted_weight(alloc)?;
    let last = table.last_columns(alloc)?;
    let sum = sum_of(alloc, &stages, &last, made.frame.total)?;
    Ok(TailSum { sum, opened: 0 })
}
