// Those who are left, in place of those who are drawn: where their scores sum to a value, those of
// the drawn ones sum to what it lacks to the sum of all.
ghost use Rattle.std.specs.Prelude.{◌≡◌, pos, ◌-ℤ◌, ◌≤◌, unsigned_abs};
ghost use Rattle.std.specs.Int.{w128, saturate_signed};
ghost use Rattle.weights.specs.Numbers.{absolute_sum};
ghost use Rattle.weights.specs.declared.TheConstants.{MAX};
ghost use Rattle.weights.specs.declared.tails.Tail.{Tail};
ghost use Rattle.score_convolution.specs.Sides.{sides_for};
ghost use Rattle.score_convolution.specs.Draws.{score_total};
ghost use Rattle.score_convolution.specs.LeftDraws.{AreLeftSides};

use crate::sides::{Sides, TailSides};
use weights::plus;

// What scores sum to.
fn score_total(scores: &[i128]) -> i128
    requires { absolute_sum scores.now ≤ MAX }
    ensures is { result ≡ score_total scores.now }
    ensures small { unsigned_abs result ≤ absolute_sum scores.now }
{
    let mut total = 0;
    for i in 0..scores.len() {
        total = plus(total, scores[i]);
    }
    total
}

// The greatest number that lacks more than a bound to a total, as far as 128 bits go.
fn last_lacking(total: i128, bound: i128) -> i128
    requires { unsigned_abs total ≤ MAX }
    ensures { result ≡ saturate_signed w128 ((total -ℤ pos 1) -ℤ bound) }
{
    (total - 1).saturating_sub(bound)
}

// The sides for those who are left, by those of a tail.
fn reflected(sides: Sides, total: i128) -> Sides
    requires { unsigned_abs total ≤ MAX }
    ensures { AreLeftSides total sides result }
{
    match sides {
        Sides::Every => Sides::Every,
        Sides::UpTo(most) => {
            let above = last_lacking(total, most);
            Sides::Above(above)
        }
        Sides::Above(least) => {
            let below = last_lacking(total, least);
            Sides::UpTo(below)
        }
        Sides::Apart(most, least) => {
            let lower = last_lacking(total, least);
            let upper = last_lacking(total, most);
            Sides::Apart(lower, upper)
        }
    }
}

/// The sides for those who are left, by those for the drawn ones.
pub(crate) fn left_sides(sides: &TailSides, scores: &[i128]) -> TailSides
    requires { absolute_sum scores.now ≤ MAX }
    ensures { (t : Tail)
        → AreLeftSides (score_total scores.now) (sides_for sides.now t) (sides_for result t) }
{
    let total = score_total(scores);
    TailSides {
        less: reflected(sides.less, total),
        greater: reflected(sides.greater, total),
        two: reflected(sides.two, total),
    }
}
