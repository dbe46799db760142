// The lists of signs whose sum of scores passes the rules of a test.
ghost use Rattle.std.specs.Prelude.{◌≡◌, ℕ, ℤ, pos, ◌+ℤ◌, ◌+◌, ◌*◌, ◌^◌, ◌<◌, ◌≤◌, ◌≤ℤ◌, ◌⊎◌, ◌∷◌};
ghost use Rattle.std.specs.Prelude.{true, length, All};
ghost use Rattle.std.specs.Prelude.{unsigned_abs, IfOk};
ghost use Rattle.std.specs.Int.{◌∣◌};
ghost use Rattle.weights.specs.Numbers.{absolute_sum};
ghost use Rattle.weights.specs.declared.TheConstants.{MAX};
ghost use Rattle.weights.specs.declared.tails.Tail.{Tail};
ghost use Rattle.networks.specs.Asked.{asks};
ghost use Rattle.networks.specs.Completions.{extreme_weight};
ghost use Rattle.networks.specs.Judged.{IsJudged, rule_in};
ghost use Rattle.networks.specs.EachTail.{sum_for};
ghost use Rattle.score_convolution.specs.Sides.{AreOrdered, is_in, once, sides_for};
ghost use Rattle.score_convolution.specs.Draws.{draw_sum};
ghost use Rattle.score_convolution.specs.DrawRows.{IsDrawRow, row_draws};
ghost use Rattle.score_convolution.specs.DrawnSums.{passing_signs};

use crate::cells::Cells;
use crate::cutting::{are_few_sums, are_near_sums, common_divisor, in_order};
use crate::few_keys::few_sums;
use crate::lists::SumList;
use crate::pairs::row_pairs;
use crate::rows::{DrawRow, place_between};
use crate::sides::TailSides;
use crate::tallies::Tally;
use networks::{Judge, Roomed, TailSums};
use stage_network::tail_sums_by_rooms;
use std::alloc::Global;
use weights::{Narrow, NoMemory, Tails, Wide};

// A score and 0, the lesser first.
fn beside_none(score: i128) -> (i128, i128)
    ensures order { result.0 ≤ℤ result.1 }
    ensures sum { result.0 +ℤ result.1 ≡ score }
    ensures one { (result.0 ≡ pos 0) ⊎ (result.1 ≡ pos 0) }
{
    if score < 0 { (score, 0) } else { (0, score) }
}

// The draws with a subject more, who is drawn or left.
fn with_subject<K: Tally>(
    alloc: Global,
    row: &DrawRow<K>,
    score: i128,
    stride: u128,
) -> Result<DrawRow<K>, NoMemory>
    requires row { IsDrawRow K.cells K.LIMIT row.now }
    requires some { 0 < stride }
    requires apart { stride ∣ unsigned_abs score }
    requires small { unsigned_abs row.now.lowest + unsigned_abs score ≤ MAX }
    requires near { unsigned_abs score + length (K.cells row.now.tally) ≤ MAX + 1 }
    requires within { 2 * row.now.total ≤ K.LIMIT }
    requires fits { 2 * row.now.total ≤ MAX }
    ensures row { IfOk result (IsDrawRow K.cells K.LIMIT) }
    ensures total { IfOk result (λ new. new.total ≡ 2 * row.now.total) }
    ensures small { IfOk result (λ new.
        unsigned_abs new.lowest ≤ unsigned_abs row.now.lowest + unsigned_abs score) }
    ensures long { IfOk result (λ new. length (K.cells new.tally)
        ≤ length (K.cells row.now.tally) + unsigned_abs score) }
    ensures told { IfOk result (λ new. (g : ℤ → ℕ) → row_draws K.cells g stride new
        ≡ row_draws K.cells g stride row.now
        + row_draws K.cells (λ v. g (v +ℤ score)) stride row.now) }
{
    let (lower, upper) = beside_none(score);
    let mut next = row.with(alloc, lower)?;
    let place = place_between(lower, upper, stride);
    next.add(alloc, row, place)?;
    Ok(next)
}

/// The draws of any number of subjects, in one row.
pub(crate) fn sign_row<K: Tally>(
    alloc: Global,
    scores: &[i128],
    stride: u128,
) -> Result<DrawRow<K>, NoMemory>
    requires some { 0 < stride }
    requires apart { All (λ s. stride ∣ unsigned_abs s) scores.now }
    requires small { absolute_sum scores.now ≤ MAX }
    requires within { 2 ^ length scores.now ≤ K.LIMIT }
    requires fits { 2 ^ length scores.now ≤ MAX }
    ensures row { IfOk result (IsDrawRow K.cells K.LIMIT) }
    ensures total { IfOk result (λ row. row.total ≡ 2 ^ length scores.now) }
    ensures small { IfOk result (λ row. unsigned_abs row.lowest ≤ absolute_sum scores.now) }
    ensures told { IfOk result (λ row. (g : ℤ → ℕ)
        → row_draws K.cells g stride row ≡ draw_sum (λ n v. g v) 0 (pos 0) scores.now) }
{
    let mut row = DrawRow::nobody(alloc)?;
    for i in 0..scores.len() {
        row = with_subject(alloc, &row, scores[i], stride)?;
    }
    Ok(row)
}

// The sums in tallies of one kind: the first half of the subjects against the others.
fn half_sums<K: Tally>(
    alloc: Global,
    scores: &[i128],
    stride: u128,
    sides: &TailSides,
    tails: Tails,
) -> Result<TailSums, NoMemory>
    requires some { 0 < stride }
    requires apart { All (λ s. stride ∣ unsigned_abs s) scores.now }
    requires small { absolute_sum scores.now ≤ MAX }
    requires fits { 2 ^ length scores.now ≤ MAX }
    requires counts { 18446744073709551615 ≤ K.LIMIT }
    requires ordered { (t : Tail) → AreOrdered (sides_for sides.now t) }
    ensures { IfOk result (λ sums. (t : Tail) → asks tails t ≡ true → (sum_for sums t).sum
        ≡ draw_sum (λ n. once (is_in (sides_for sides.now t))) 0 (pos 0) scores.now) }
{
    let (first, second) = scores.split_at(scores.len() / 2);
    let row = sign_row::<K>(alloc, first, stride)?;
    let other = sign_row::<K>(alloc, second, stride)?;
    Ok(row_pairs(&row, &other, stride, sides, tails))
}

/// How many lists of signs have a sum of the plus marks' scores that passes the rule of each asked
/// tail: by draws of the plus marks, or by a network that has the same. How many keys were open is
/// not told.
pub fn sign_sums<S: Roomed>(
    alloc: Global,
    stages: &S,
    scores: &[i128],
    judge: &Judge,
    tails: Tails,
) -> Result<TailSums, NoMemory>
    requires total { 2 ^ length scores.now ≤ MAX }
    requires small { absolute_sum scores.now ≤ MAX }
    requires judged { IsJudged (S.Stages.network stages.now) }
    requires same { let n = S.Stages.network stages.now in
        (t : Tail) → extreme_weight n t 0 n.first ≡ passing_signs (rule_in judge.now t) scores.now }
    ensures { IfOk result (λ sums. (t : Tail) → asks tails t ≡ true
        → (sum_for sums t).sum ≡ passing_signs (rule_in judge.now t) scores.now) }
{
    let Some(sides) = TailSides::of(judge) else {
        return tail_sums_by_rooms(alloc, stages, tails);
    };
    let stride = common_divisor(scores).max(1);
    let sorted = in_order(alloc, scores)?;
    if are_few_sums(scores, stride) {
        return half_sums::<Cells<Narrow>>(alloc, sorted.as_slice(), stride, &sides, tails);
    }
    if let Some(sums) = few_sums(alloc, stages, tails)? {
        return Ok(sums);
    }
    if are_near_sums(scores, stride) {
        return half_sums::<SumList<Narrow>>(alloc, sorted.as_slice(), stride, &sides, tails);
    }
    half_sums::<SumList<Wide>>(alloc, sorted.as_slice(), stride, &sides, tails)
}
