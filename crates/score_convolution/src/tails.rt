// The labellings of two groups whose sum of scores passes the rules of a test.
ghost use Rattle.std.specs.Prelude.{◌≡◌, ℕ, pos, ◌-◌, ◌*◌, ◌<◌, ◌≤◌, [], ◌∷◌, ◌++◌, true, length};
ghost use Rattle.std.specs.Prelude.{IfOk};
ghost use Rattle.weights.specs.Labellings.{number_of_labellings};
ghost use Rattle.weights.specs.Numbers.{absolute_sum, binomial};
ghost use Rattle.weights.specs.declared.TheConstants.{MAX};
ghost use Rattle.weights.specs.declared.tails.Tail.{Tail};
ghost use Rattle.networks.specs.Asked.{asks};
ghost use Rattle.networks.specs.Completions.{extreme_weight};
ghost use Rattle.networks.specs.EachTail.{sum_for};
ghost use Rattle.networks.specs.Judged.{IsJudged, rule_in};
ghost use Rattle.score_convolution.specs.Draws.{draw_sum};
ghost use Rattle.score_convolution.specs.DrawnSums.{passing_draws};
ghost use Rattle.score_convolution.specs.DrawRows.{AreCounted, AreSubjects};
ghost use Rattle.score_convolution.specs.Meetings.{drawn_at};
ghost use Rattle.score_convolution.specs.Sides.{AreOrdered, is_in, sides_for};

use crate::cells::Cells;
use crate::cutting::{are_near_sums, common_stride, cut_of, have_ties, in_order, is_dense};
use crate::draws::draw_rows;
use crate::few_keys::few_sums;
use crate::left::left_sides;
use crate::lists::SumList;
use crate::meeting::meeting;
use crate::sides::TailSides;
use crate::tallies::Tally;
use networks::{Judge, Roomed, TailSums};
use stage_network::tail_sums_by_rooms;
use std::alloc::Global;
use weights::{Narrow, NoMemory, Tails, Wide};

// The draws of so many of no more subjects than this are a narrow count.
const FEW: usize = 66;

// The sums in tallies of one kind.
fn sums_in<K: Tally>(
    alloc: Global,
    first: &[i128],
    second: &[i128],
    drawn: usize,
    stride: u128,
    sides: &TailSides,
    tails: Tails,
) -> Result<TailSums, NoMemory>
    requires subjects { AreSubjects stride (first.now ++ second.now) }
    requires first { AreCounted K.LIMIT drawn first.now }
    requires second { AreCounted K.LIMIT drawn second.now }
    requires fits { binomial (length (first.now ++ second.now)) drawn ≤ MAX }
    requires ordered { (t : Tail) → AreOrdered (sides_for sides.now t) }
    ensures { IfOk result (λ sums. (t : Tail) → asks tails t ≡ true → (sum_for sums t).sum
        ≡ draw_sum (drawn_at (is_in (sides_for sides.now t)) drawn) 0 (pos 0)
        (first.now ++ second.now)) }
{
    let rows = draw_rows::<K>(alloc, first, stride, drawn)?;
    let others = draw_rows::<K>(alloc, second, stride, drawn)?;
    Ok(meeting(&rows, &others, drawn, stride, sides, tails))
}

// Those of subjects in two parts, who are no fewer than twice those drawn, in rows of cells.
fn cell_sums(
    alloc: Global,
    first: &[i128],
    second: &[i128],
    drawn: usize,
    stride: u128,
    sides: &TailSides,
    tails: Tails,
) -> Result<TailSums, NoMemory>
    requires subjects { AreSubjects stride (first.now ++ second.now) }
    requires few { 2 * drawn ≤ length (first.now ++ second.now) }
    requires fits { binomial (length (first.now ++ second.now)) drawn ≤ MAX }
    requires ordered { (t : Tail) → AreOrdered (sides_for sides.now t) }
    ensures { IfOk result (λ sums. (t : Tail) → asks tails t ≡ true → (sum_for sums t).sum
        ≡ draw_sum (drawn_at (is_in (sides_for sides.now t)) drawn) 0 (pos 0)
        (first.now ++ second.now)) }
{
    if first.len() <= FEW && second.len() <= FEW {
        sums_in::<Cells<Narrow>>(alloc, first, second, drawn, stride, sides, tails)
    } else {
        sums_in::<Cells<Wide>>(alloc, first, second, drawn, stride, sides, tails)
    }
}

// Where so many subjects are cut in the middle.
fn middle_of(subjects: usize) -> usize
    ensures { 2 * result ≤ subjects }
{
    subjects / 2
}

// Those of ascending scores in lists, which are as long as there are draws: so both parts have as
// many subjects.
fn list_sums(
    alloc: Global,
    sorted: &[i128],
    drawn: usize,
    stride: u128,
    sides: &TailSides,
    tails: Tails,
) -> Result<TailSums, NoMemory>
    requires subjects { AreSubjects stride sorted.now }
    requires few { 2 * drawn ≤ length sorted.now }
    requires fits { binomial (length sorted.now) drawn ≤ MAX }
    requires ordered { (t : Tail) → AreOrdered (sides_for sides.now t) }
    ensures { IfOk result (λ sums. (t : Tail) → asks tails t ≡ true → (sum_for sums t).sum
        ≡ draw_sum (drawn_at (is_in (sides_for sides.now t)) drawn) 0 (pos 0) sorted.now) }
{
    let cut = middle_of(sorted.len());
    let (first, second) = sorted.split_at(cut);
    if second.len() <= FEW && are_near_sums(sorted, stride) {
        sums_in::<SumList<Narrow>>(alloc, first, second, drawn, stride, sides, tails)
    } else {
        sums_in::<SumList<Wide>>(alloc, first, second, drawn, stride, sides, tails)
    }
}

// Those of ascending scores: by rows of cells where these are short, or by a network that has the
// same, where few of its keys are open, or by lists.
fn sorted_sums<S: Roomed>(
    alloc: Global,
    stages: &S,
    sorted: &[i128],
    drawn: usize,
    stride: u128,
    sides: &TailSides,
    tails: Tails,
) -> Result<TailSums, NoMemory>
    requires subjects { AreSubjects stride sorted.now }
    requires few { 2 * drawn ≤ length sorted.now }
    requires fits { binomial (length sorted.now) drawn ≤ MAX }
    requires ordered { (t : Tail) → AreOrdered (sides_for sides.now t) }
    requires same { let n = S.Stages.network stages.now in
        (t : Tail) → extreme_weight n t 0 n.first
        ≡ draw_sum (drawn_at (is_in (sides_for sides.now t)) drawn) 0 (pos 0) sorted.now }
    ensures { let n = S.Stages.network stages.now in
        IfOk result (λ sums. (t : Tail) → asks tails t ≡ true
        → (sum_for sums t).sum ≡ extreme_weight n t 0 n.first) }
{
    let cut = cut_of(sorted, stride, drawn);
    let (first, second) = sorted.split_at(cut);
    let dense = is_dense(first, stride, drawn) && is_dense(second, stride, drawn);
    if dense && !have_ties(sorted, drawn) {
        return cell_sums(alloc, first, second, drawn, stride, sides, tails);
    }
    if let Some(sums) = few_sums(alloc, stages, tails)? {
        return Ok(sums);
    }
    list_sums(alloc, sorted, drawn, stride, sides, tails)
}

/// How many labellings of two groups have a sum of the second one's scores that passes the rule of
/// each asked tail, where so many subjects are of the second group: by draws of the smaller group,
/// or by a network that has the same. How many keys were open is not told.
pub fn drawn_sums<S: Roomed>(
    alloc: Global,
    stages: &S,
    scores: &[i128],
    drawn: usize,
    judge: &Judge,
    tails: Tails,
) -> Result<TailSums, NoMemory>
    requires drawn { drawn ≤ length scores.now }
    requires total { number_of_labellings ((length scores.now - drawn) ∷ drawn ∷ []) ≤ MAX }
    requires small { 2 * length scores.now * absolute_sum scores.now ≤ MAX }
    requires judged { IsJudged (S.Stages.network stages.now) }
    requires same { let n = S.Stages.network stages.now in
        (t : Tail) → extreme_weight n t 0 n.first
        ≡ passing_draws (rule_in judge.now t) drawn scores.now }
    ensures { IfOk result (λ sums. (t : Tail) → asks tails t ≡ true
        → (sum_for sums t).sum ≡ passing_draws (rule_in judge.now t) drawn scores.now) }
{
    let Some(sides) = TailSides::of(judge) else {
        return tail_sums_by_rooms(alloc, stages, tails);
    };
    let stride = common_stride(scores).max(1);
    let sorted = in_order(alloc, scores)?;
    let left = scores.len() - drawn;
    if drawn <= left {
        return sorted_sums(
            alloc,
            stages,
            sorted.as_slice(),
            drawn,
            stride,
            &sides,
            tails,
        );
    }
    let left_sides = left_sides(&sides, scores);
    sorted_sums(
        alloc,
        stages,
        sorted.as_slice(),
        left,
        stride,
        &left_sides,
        tails,
    )
}
