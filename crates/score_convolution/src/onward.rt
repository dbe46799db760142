// The lists of signs whose sum of scores passes the rule of a tail, where the marks of some
// subjects are chosen already: those that make up the keys of a stage.
ghost use Rattle.std.specs.Prelude.{◌≡◌, ℕ, ℤ, pos, ◌+ℤ◌, ◌+◌, ◌*◌, ◌^◌, ◌<◌, ◌≤◌, List, length};
ghost use Rattle.std.specs.Prelude.{unsigned_abs, All, IfOk};
ghost use Rattle.std.specs.Int.{◌∣◌};
ghost use Rattle.weights.specs.Numbers.{absolute_sum};
ghost use Rattle.weights.specs.declared.TheConstants.{MAX};
ghost use Rattle.node_pool.specs.Nodes.{weighted};
ghost use Rattle.node_pool.specs.PoolSteps.{nodes_of};
ghost use Rattle.networks.specs.Completions.{extreme_weight, total_weight};
ghost use Rattle.networks.specs.Judged.{rule_in};
ghost use Rattle.networks.specs.Network.{IsReached};
ghost use Rattle.stage_network.specs.FromKeys.{AreStarts};
ghost use Rattle.score_convolution.specs.Draws.{draw_sum};
ghost use Rattle.score_convolution.specs.DrawRows.{IsDrawRow, number_of};
ghost use Rattle.score_convolution.specs.DrawnSums.{passing_onward};
ghost use Rattle.score_convolution.specs.Meetings.{pair_draws};
ghost use Rattle.score_convolution.specs.Sides.{AreOrdered, is_in, once};

use crate::cells::Cells;
use crate::cutting::{are_few_sums, are_near_sums, common_divisor, has_few_steps};
use crate::few_keys::few_sum_onward;
use crate::lists::SumList;
use crate::pairs::pairs_in;
use crate::rows::DrawRow;
use crate::sides::{Sides, TailSides};
use crate::signs::sign_row;
use crate::tallies::Tally;
use networks::{Judge, Roomed};
use stage_network::sum_from_keys;
use std::alloc::Global;
use weights::{Narrow, NoMemory, Tail, Wide, plus};

// Of each key its weight times how many pairs of a draw of each row have, with the key's sum, one
// that is on these sides. The first row is moved by each key in turn.
fn key_pairs<K: Tally>(
    mut one: DrawRow<K>,
    other: &DrawRow<K>,
    stride: u128,
    sides: Sides,
    keys: &[i128],
    weights: &[u128],
) -> u128
    requires one { IsDrawRow K.cells K.LIMIT one }
    requires other { IsDrawRow K.cells K.LIMIT other.now }
    requires few { one.total * other.now.total ≤ MAX }
    requires small { All (λ k. unsigned_abs k
        + (unsigned_abs one.lowest + unsigned_abs other.now.lowest) ≤ MAX) keys.now }
    requires some { 0 < stride }
    requires ordered { AreOrdered sides }
    requires long { length keys.now ≡ length weights.now }
    requires fits { weighted (λ k. one.total * other.now.total)
        (nodes_of 1 keys.now weights.now) ≤ MAX }
    ensures { result ≡ weighted (λ k. pair_draws K.cells
        (λ v. once (is_in sides) (number_of k +ℤ v)) stride one other.now)
        (nodes_of 1 keys.now weights.now) }
{
    let lowest = one.lowest;
    let mut sum = 0;
    for i in 0..weights.len() {
        one.lowest = plus(lowest, keys[i]);
        sum += weights[i] * pairs_in(&one, other, stride, sides);
    }
    sum
}

// Of each key its weight times how many draws of those who are left have, with the key's sum, one
// that is on these sides: the rows of both halves of them are made once.
fn key_sums<K: Tally>(
    alloc: Global,
    left: &[i128],
    stride: u128,
    sides: Sides,
    keys: &[i128],
    weights: &[u128],
) -> Result<u128, NoMemory>
    requires some { 0 < stride }
    requires apart { All (λ s. stride ∣ unsigned_abs s) left.now }
    requires near { absolute_sum left.now ≤ MAX }
    requires few { 2 ^ length left.now ≤ MAX }
    requires small { All (λ k. unsigned_abs k + absolute_sum left.now ≤ MAX) keys.now }
    requires counts { 18446744073709551615 ≤ K.LIMIT }
    requires ordered { AreOrdered sides }
    requires long { length keys.now ≡ length weights.now }
    requires fits { weighted (λ k. 2 ^ length left.now) (nodes_of 1 keys.now weights.now) ≤ MAX }
    ensures { IfOk result (λ sum. sum ≡ weighted (λ k. draw_sum
        (λ n v. once (is_in sides) (number_of k +ℤ v)) 0 (pos 0) left.now)
        (nodes_of 1 keys.now weights.now)) }
{
    let (first, second) = left.split_at(left.len() / 2);
    let row = sign_row::<K>(alloc, first, stride)?;
    let other = sign_row::<K>(alloc, second, stride)?;
    Ok(key_pairs(row, &other, stride, sides, keys, weights))
}

/// The sum, over distinct keys that are reached at a stage and lie one after another, of the key's
/// weight times the summed weight of its extreme completions, in a network whose keys are sums of
/// scores of plus marks: by draws of the subjects who are left after the stage, or by the network
/// where that is less work.
pub fn sign_sum_onward<S: Roomed>(
    alloc: Global,
    stages: &S,
    tail: Tail,
    stage: usize,
    keys: &[i128],
    weights: &[u128],
    left: &[i128],
    judge: &Judge,
) -> Result<u128, NoMemory>
    requires starts { AreStarts (S.Stages.network stages.now) stage keys.now weights.now }
    requires one { (S.Stages.network stages.now).width ≡ 1 }
    requires few { 2 ^ length left.now ≤ MAX }
    requires near { absolute_sum left.now ≤ MAX }
    requires small { All (λ k. unsigned_abs k + absolute_sum left.now ≤ MAX) keys.now }
    requires total { let n = S.Stages.network stages.now in
        (k : List ℤ) → IsReached n stage k → total_weight n stage k ≡ 2 ^ length left.now }
    requires same { let n = S.Stages.network stages.now in
        (k : List ℤ) → IsReached n stage k → extreme_weight n tail stage k
        ≡ passing_onward (rule_in judge.now tail) (number_of k) left.now }
    ensures { let n = S.Stages.network stages.now in
        IfOk result (λ sum. sum
        ≡ weighted (extreme_weight n tail stage) (nodes_of n.width keys.now weights.now)) }
{
    let Some(all) = TailSides::of(judge) else {
        return sum_from_keys(alloc, stages, tail, stage, keys, weights);
    };
    let sides = all.of_tail(tail);
    let stride = common_divisor(left).max(1);
    let dense = are_few_sums(left, stride);
    if !has_few_steps(keys.len(), left, dense) {
        return sum_from_keys(alloc, stages, tail, stage, keys, weights);
    }
    if dense {
        return key_sums::<Cells<Narrow>>(alloc, left, stride, sides, keys, weights);
    }
    let draws = 1u128 << left.len();
    if let Some(sum) = few_sum_onward(alloc, stages, tail, stage, keys, weights, draws)? {
        return Ok(sum);
    }
    if are_near_sums(left, stride) {
        return key_sums::<SumList<Narrow>>(alloc, left, stride, sides, keys, weights);
    }
    key_sums::<SumList<Wide>>(alloc, left, stride, sides, keys, weights)
}
