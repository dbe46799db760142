// The sums over the extreme completions, and the counts of the open keys.
ghost use Rattle.std.specs.Prelude.{◌≡◌, ◌≤◌, true, IfOk};
ghost use Rattle.networks.specs.Asked.{asked, asks};
ghost use Rattle.networks.specs.Completions.{total_weight, extreme_weight};
ghost use Rattle.networks.specs.Judged.{IsJudged};
ghost use Rattle.networks.specs.Opened.{opened_below, opened_by_some};
ghost use Rattle.networks.specs.EachTail.{sum_for};
ghost use Rattle.weights.specs.declared.tails.Tail.{Tail};

use crate::row_sweeps::row_sums;
use crate::sweep::sweep_through;
use crate::widths::{Width, width_of};
use networks::{Kept, Roomed, Stages, TailSum, TailSums, Whole, only};
use std::alloc::Global;
use weights::{Count, Narrow, NoMemory, Tail, Tails, Wide};

// The sums of the asked tails in counts of one width: by rows of cells where these serve and find
// memory.
fn sums_in<C: Count, S: Roomed>(
    alloc: Global,
    stages: &S,
    tails: Tails,
) -> Result<TailSums, NoMemory>
    requires limit { let n = S.Stages.network stages.now in total_weight n 0 n.first ≤ C.LIMIT }
    ensures sum { let n = asked tails (S.Stages.network stages.now) in
        IfOk result (λ all. (t : Tail) → (sum_for all t).sum ≡ extreme_weight n t 0 n.first) }
    ensures opened { let n = asked tails (S.Stages.network stages.now) in
        IfOk result (λ all. (t : Tail) → (sum_for all t).opened ≡ opened_by_some n t n.count) }
{
    if stages.is_shift() {
        if let Ok(Some(sums)) = row_sums::<C, S>(alloc, stages, tails) {
            return Ok(sums);
        }
    }
    let swept = sweep_through::<C, S>(alloc, stages, Kept::Open(tails))?;
    Ok(swept.sums)
}

/// The summed weight of all completions of the first key.
pub fn total_of<S: Stages>(alloc: Global, stages: &S) -> Result<u128, NoMemory>
    ensures { let n = S.network stages.now in
        IfOk result (λ total. total ≡ total_weight n 0 n.first) }
{
    let mut keys = vec![in alloc; 0i128; stages.width()]?;
    let key = keys.as_mut_slice();
    stages.first_key(key);
    let total = stages.rest(0, key);
    Ok(total)
}

// The sums of the asked tails by one sweep: a key stays as long as it is open for some of these.
// For each, how many of the keys that stayed were open for it.
fn sums_by_rooms<S: Roomed>(alloc: Global, stages: &S, tails: Tails) -> Result<TailSums, NoMemory>
    ensures sum { let n = asked tails (S.Stages.network stages.now) in
        IfOk result (λ all. (t : Tail) → (sum_for all t).sum ≡ extreme_weight n t 0 n.first) }
    ensures opened { let n = asked tails (S.Stages.network stages.now) in
        IfOk result (λ all. (t : Tail) → (sum_for all t).opened ≡ opened_by_some n t n.count) }
{
    let _lawful = stages.stages();
    let total = total_of(alloc, stages)?;
    match width_of(total) {
        Width::Narrow => sums_in::<Narrow, S>(alloc, stages, tails),
        Width::Wide => sums_in::<Wide, S>(alloc, stages, tails),
    }
}

/// The tail sums of the asked tails by one sweep, where the verdicts go by rules over intervals: so
/// a key that is open for a tail is reached through keys that are open for it.
pub fn tail_sums_by_rooms<S: Roomed>(
    alloc: Global,
    stages: &S,
    tails: Tails,
) -> Result<TailSums, NoMemory>
    requires { IsJudged (S.Stages.network stages.now) }
    ensures sum { let n = S.Stages.network stages.now in
        IfOk result (λ all. (t : Tail) → asks tails t ≡ true
        → (sum_for all t).sum ≡ extreme_weight n t 0 n.first) }
    ensures opened { let n = S.Stages.network stages.now in
        IfOk result (λ all. (t : Tail) → asks tails t ≡ true
        → (sum_for all t).opened ≡ opened_below n t n.count) }
{
    let _lawful = stages.stages();
    let sums = sums_by_rooms(alloc, stages, tails)?;
    Ok(sums)
}

/// The tail sum, room by room: what a room decides is asked once per room.
pub fn tail_sum_by_rooms<S: Roomed>(
    alloc: Global,
    stages: &S,
    tail: Tail,
) -> Result<TailSum, NoMemory>
    ensures sum { let n = S.Stages.network stages.now in
        IfOk result (λ all. all.sum ≡ extreme_weight n tail 0 n.first) }
    ensures opened { let n = S.Stages.network stages.now in
        IfOk result (λ all. all.opened ≡ opened_below n tail n.count) }
{
    let _lawful = stages.stages();
    let sums = sums_by_rooms(alloc, stages, only(tail))?;
    Ok(sums.of(tail))
}

/// The summed weight of the extreme completions of the first key, and the number of the undecided
/// keys that are reached through undecided keys alone, each distinct key of a stage once.
pub fn tail_sum<S: Stages>(alloc: Global, stages: &S, tail: Tail) -> Result<TailSum, NoMemory>
    ensures sum { let n = S.network stages.now in
        IfOk result (λ all. all.sum ≡ extreme_weight n tail 0 n.first) }
    ensures opened { let n = S.network stages.now in
        IfOk result (λ all. all.opened ≡ opened_below n tail n.count) }
{
    tail_sum_by_rooms(alloc, &Whole::new(stages), tail)
}
