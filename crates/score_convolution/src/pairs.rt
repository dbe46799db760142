// The pairs of a draw of each of two rows, by whether their sum is wanted.
ghost use Rattle.std.specs.Prelude.{◌≡◌, ℕ, ◌*◌, ◌+ℤ◌, ◌<◌, ◌≤◌, pos, int_lt, nat_le};
ghost use Rattle.std.specs.Prelude.{cond, unsigned_abs};
ghost use Rattle.weights.specs.declared.TheConstants.{MAX};
ghost use Rattle.weights.specs.declared.tails.Tail.{Tail};
ghost use Rattle.networks.specs.Asked.{asks};
ghost use Rattle.networks.specs.EachTail.{sum_for};
ghost use Rattle.score_convolution.specs.Sides.{AreOrdered, is_in, once, sides_for};
ghost use Rattle.score_convolution.specs.Meetings.{AreFew, pair_draws};

use crate::rows::DrawRow;
use crate::sides::{Sides, TailSides};
use crate::tallies::Tally;
use networks::{TailSum, TailSums};
use weights::{Tails, plus};

// The first place of a row at which its number is above a bound.
fn first_above(lowest: i128, stride: u128, bound: i128) -> u128
    requires stride { 0 < stride }
    requires small { unsigned_abs lowest ≤ MAX }
    ensures { (n : ℕ) → int_lt bound (lowest +ℤ pos (n * stride)) ≡ nat_le result n }
{
    if bound < lowest {
        return 0;
    }
    bound.abs_diff(lowest) / stride + 1
}

// How many pairs have a sum above a bound.
fn pairs_above<K: Tally>(one: &DrawRow<K>, other: &DrawRow<K>, stride: u128, bound: i128) -> u128
    requires few { AreFew K.cells K.LIMIT one.now other.now }
    requires stride { 0 < stride }
    ensures { result ≡ pair_draws K.cells (once (int_lt bound)) stride one.now other.now }
{
    let place = first_above(plus(one.lowest, other.lowest), stride, bound);
    one.tally.pairs_from(&other.tally, place)
}

/// How many pairs have a sum that is in these.
pub(crate) fn pairs_in<K: Tally>(
    one: &DrawRow<K>,
    other: &DrawRow<K>,
    stride: u128,
    sides: Sides,
) -> u128
    requires few { AreFew K.cells K.LIMIT one.now other.now }
    requires stride { 0 < stride }
    requires ordered { AreOrdered sides }
    ensures { result ≡ pair_draws K.cells (once (is_in sides)) stride one.now other.now }
{
    let all = one.total * other.total;
    match sides {
        Sides::Every => all,
        Sides::UpTo(most) => all - pairs_above(one, other, stride, most),
        Sides::Above(least) => pairs_above(one, other, stride, least),
        Sides::Apart(most, least) => {
            let over = pairs_above(one, other, stride, most);
            let above = pairs_above(one, other, stride, least);
            all - over + above
        }
    }
}

// Those, where they are asked.
fn asked_pairs<K: Tally>(
    asked: bool,
    one: &DrawRow<K>,
    other: &DrawRow<K>,
    stride: u128,
    sides: Sides,
) -> TailSum
    requires few { AreFew K.cells K.LIMIT one.now other.now }
    requires stride { 0 < stride }
    requires ordered { AreOrdered sides }
    ensures { result.sum
        ≡ cond asked (pair_draws K.cells (once (is_in sides)) stride one.now other.now) 0 }
{
    let sum = if asked {
        pairs_in(one, other, stride, sides)
    } else {
        0
    };
    TailSum { sum, opened: 0 }
}

/// Of each asked tail how many pairs of a draw of one row and a draw of another have a sum on its
/// sides.
pub(crate) fn row_pairs<K: Tally>(
    one: &DrawRow<K>,
    other: &DrawRow<K>,
    stride: u128,
    sides: &TailSides,
    tails: Tails,
) -> TailSums
    requires few { AreFew K.cells K.LIMIT one.now other.now }
    requires stride { 0 < stride }
    requires ordered { (t : Tail) → AreOrdered (sides_for sides.now t) }
    ensures { (t : Tail) → (sum_for result t).sum ≡ cond (asks tails t)
        (pair_draws K.cells (once (is_in (sides_for sides.now t))) stride one.now other.now) 0 }
{
    TailSums {
        less: asked_pairs(tails.less, one, other, stride, sides.less),
        greater: asked_pairs(tails.greater, one, other, stride, sides.greater),
        two: asked_pairs(tails.two, one, other, stride, sides.two),
    }
}
