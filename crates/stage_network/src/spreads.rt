// Every value that the completions take: a sweep that closes no key.
ghost use Rattle.std.specs.Prelude.{◌≡◌, ℤ, ◌≤◌, Bool, cond, IfOk, IfSome};
ghost use Rattle.weights.specs.declared.TheConstants.{MAX};
ghost use Rattle.node_pool.specs.Nodes.{weighted};
ghost use Rattle.networks.specs.Completions.{total_weight, value_weights};
ghost use Rattle.networks.specs.Lines.{IsSpreadOf, every, line_sum};
ghost use Rattle.stage_network.specs.NodeSteps.{AllReached};
ghost use Rattle.networks.specs.Shifts.{IsShifting};

use crate::nodes::StageNodes;
use crate::row_ends::row_ends;
use crate::sums::total_of;
use crate::sweep::sweep_through;
use crate::widths::{Width, width_of};
use networks::{Kept, Roomed, Spread, Stages, Whole, write_key};
use std::alloc::Global;
use weights::{Count, Line, Narrow, NoMemory, Wide};

// The value of each node of the last stage, with the node's weight.
fn node_lines<C: Count, S: Stages>(
    alloc: Global,
    stages: &S,
    nodes: &StageNodes<C>,
) -> Result<Vec<Line>, NoMemory>
    requires width { nodes.now.width ≡ (S.network stages.now).width }
    requires reached { let n = S.network stages.now in AllReached n n.count nodes.now.nodes }
    requires fits { weighted (λ k. 1) nodes.now.nodes ≤ MAX }
    ensures { let n = S.network stages.now in
        IfOk result (λ lines. (p : ℤ → Bool) → line_sum p lines.items
        ≡ weighted (λ k. cond (p (n.value k)) 1 0) nodes.now.nodes) }
{
    let mut keys = vec![in alloc; 0i128; stages.width()]?;
    let key = keys.as_mut_slice();
    let mut lines = Vec::new(alloc);
    for i in 0..nodes.len() {
        write_key(nodes.room(i), nodes.partial(i), key);
        lines.push(Line {
            value: stages.value(key),
            weight: nodes.weight(i).value(),
        })?;
    }
    Ok(lines)
}

// The lines by ascending value, those of one value as one. Once they are sorted, each stands at or
// behind the end of those before it.
fn merge_lines(alloc: Global, lines: &mut [Line]) -> Result<Spread, NoMemory>
    requires { line_sum every lines.old ≤ MAX }
    ensures { IfOk result (IsSpreadOf (λ p. line_sum p lines.old)) }
{
    lines.sort_unstable_by_key(|line| line.value);
    let mut spread = Spread::empty(alloc);
    for i in 0..lines.len() {
        spread.add(lines[i].value, lines[i].weight)?;
    }
    Ok(spread)
}

// The values of nodes of the last stage, each with the weight of its nodes.
fn node_values<C: Count, S: Stages>(
    alloc: Global,
    stages: &S,
    nodes: &StageNodes<C>,
) -> Result<Spread, NoMemory>
    requires width { nodes.now.width ≡ (S.network stages.now).width }
    requires reached { let n = S.network stages.now in AllReached n n.count nodes.now.nodes }
    requires fits { weighted (λ k. 1) nodes.now.nodes ≤ MAX }
    ensures { let n = S.network stages.now in
        let sums = λ (p : ℤ → Bool). weighted (λ k. cond (p (n.value k)) 1 0) nodes.now.nodes in
        IfOk result (IsSpreadOf sums) }
{
    let mut lines = node_lines(alloc, stages, nodes)?;
    let spread = merge_lines(alloc, lines.as_mut_slice())?;
    Ok(spread)
}

// The values in counts of one width, by rows of cells; None where these do not serve.
fn spread_by_rows<C: Count, S: Roomed>(
    alloc: Global,
    stages: &S,
) -> Result<Option<Spread>, NoMemory>
    requires shifting { let n = S.Stages.network stages.now in
        let width = S.room_width stages.now in
        IsShifting n width (S.step_width stages.now) (S.step_of stages.now) }
    requires limit { let n = S.Stages.network stages.now in total_weight n 0 n.first ≤ C.LIMIT }
    ensures { let n = S.Stages.network stages.now in
        IfOk result (λ some. IfSome some (IsSpreadOf (value_weights n))) }
{
    let ends = row_ends::<C, S>(alloc, stages)?;
    match ends {
        Some(nodes) => {
            let spread = node_values(alloc, stages, &nodes)?;
            Ok(Some(spread))
        }
        None => Ok(None),
    }
}

// The values in counts of one width: by rows of cells where these serve and find memory.
fn spread_in<C: Count, S: Roomed>(alloc: Global, stages: &S) -> Result<Spread, NoMemory>
    requires limit { let n = S.Stages.network stages.now in total_weight n 0 n.first ≤ C.LIMIT }
    ensures { IfOk result (IsSpreadOf (value_weights (S.Stages.network stages.now))) }
{
    if stages.is_shift() {
        if let Ok(Some(spread)) = spread_by_rows::<C, S>(alloc, stages) {
            return Ok(spread);
        }
    }
    let swept = sweep_through::<C, S>(alloc, stages, Kept::All)?;
    let spread = node_values(alloc, stages, &swept.nodes)?;
    Ok(spread)
}

/// The spread, room by room: what a room decides is asked once per room.
pub fn spread_by_rooms<S: Roomed>(alloc: Global, stages: &S) -> Result<Spread, NoMemory>
    ensures { IfOk result (IsSpreadOf (value_weights (S.Stages.network stages.now))) }
{
    let _lawful = stages.stages();
    let total = total_of(alloc, stages)?;
    match width_of(total) {
        Width::Narrow => spread_in::<Narrow, S>(alloc, stages),
        Width::Wide => spread_in::<Wide, S>(alloc, stages),
    }
}

/// The values of the completions of the first key, each with its summed weight.
pub fn spread<S: Stages>(alloc: Global, stages: &S) -> Result<Spread, NoMemory>
    ensures { IfOk result (IsSpreadOf (value_weights (S.network stages.now))) }
{
    spread_by_rooms(alloc, &Whole::new(stages))
}
