// Where two parts of the subjects meet: the draws of one are read against those of the other.
ghost use Rattle.std.specs.Prelude.{◌≡◌, ◌+◌, ◌<◌, ◌≤◌, cond, length, get_or};
ghost use Rattle.weights.specs.declared.TheConstants.{MAX};
ghost use Rattle.weights.specs.declared.tails.Tail.{Tail};
ghost use Rattle.networks.specs.Asked.{asks};
ghost use Rattle.networks.specs.EachTail.{sum_for};
ghost use Rattle.score_convolution.specs.Sides.{AreOrdered, is_in, sides_for};
ghost use Rattle.score_convolution.specs.DrawRows.{row_draws, rows_draws};
ghost use Rattle.score_convolution.specs.Meetings.{MayMeet, met};
ghost use Rattle.score_convolution.specs.declared.rows.DrawRow.{DrawRow};

use crate::pairs::row_pairs;
use crate::rows::DrawRow;
use crate::sides::TailSides;
use crate::tallies::Tally;
use networks::{TailSum, TailSums};
use weights::Tails;

// Two sums as one. No key was open.
fn plus(one: TailSum, other: TailSum) -> TailSum
    requires { one.sum + other.sum ≤ MAX }
    ensures { result.sum ≡ one.sum + other.sum }
{
    TailSum {
        sum: one.sum + other.sum,
        opened: 0,
    }
}

// The sums of two parts, tail by tail.
fn sums_of_both(one: TailSums, other: TailSums) -> TailSums
    requires { (t : Tail) → (sum_for one t).sum + (sum_for other t).sum ≤ MAX }
    ensures { (t : Tail) → (sum_for result t).sum ≡ (sum_for one t).sum + (sum_for other t).sum }
{
    TailSums {
        less: plus(one.less, other.less),
        greater: plus(one.greater, other.greater),
        two: plus(one.two, other.two),
    }
}

// Those of the draws of n subjects, with the draws of the others that are wanted.
fn sums_at<K: Tally>(
    rows: &[DrawRow<K>],
    others: &[DrawRow<K>],
    n: usize,
    drawn: usize,
    stride: u128,
    sides: &TailSides,
    tails: Tails,
) -> TailSums
    requires n { n < length rows.now }
    requires meet { MayMeet K.cells K.LIMIT drawn stride sides.now rows.now others.now }
    requires stride { 0 < stride }
    requires ordered { (t : Tail) → AreOrdered (sides_for sides.now t) }
    ensures { (t : Tail) (d : DrawRow K) → (sum_for result t).sum
        ≡ cond (asks tails t) (row_draws K.cells
        (met K.cells (is_in (sides_for sides.now t)) drawn stride others.now n) stride
        (get_or rows.now n d)) 0 }
{
    if n > drawn {
        return TailSums::none();
    }
    let left = drawn - n;
    if left >= others.len() {
        return TailSums::none();
    }
    row_pairs(&rows[n], &others[left], stride, sides, tails)
}

/// Of each asked tail how many draws of so many subjects, some of each part, have a sum on its
/// sides.
pub(crate) fn meeting<K: Tally>(
    rows: &[DrawRow<K>],
    others: &[DrawRow<K>],
    drawn: usize,
    stride: u128,
    sides: &TailSides,
    tails: Tails,
) -> TailSums
    requires meet { MayMeet K.cells K.LIMIT drawn stride sides.now rows.now others.now }
    requires stride { 0 < stride }
    requires ordered { (t : Tail) → AreOrdered (sides_for sides.now t) }
    ensures { (t : Tail) → (sum_for result t).sum ≡ cond (asks tails t)
        (rows_draws K.cells (met K.cells (is_in (sides_for sides.now t)) drawn stride others.now)
        0 stride rows.now) 0 }
{
    let mut sums = TailSums::none();
    for n in 0..rows.len() {
        let more = sums_at(rows, others, n, drawn, stride, sides, tails);
        sums = sums_of_both(sums, more);
    }
    sums
}
