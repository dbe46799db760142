// Sums up to the greatest statistic.
ghost use Rattle.std.specs.Prelude.{◌≡◌, ◌≤◌, nat_abs, SomeIff};
ghost use Rattle.std.specs.List.{sum, sum_by};
ghost use Rattle.scores.specs.ScoreSteps.{IsScoredAs};
ghost use Rattle.weights.specs.Numbers.{absolute_sum};
ghost use Rattle.weights.specs.declared.TheConstants.{MAX};

use crate::kinds::{ScoreFault, Scored};
use weights::{Ints, bounded_sum};

/// The sum of numbers, or None exactly where it passes [`MAX`].
pub(crate) fn total(numbers: &[u128]) -> Option<u128>
    ensures { SomeIff result (sum numbers.now ≤ MAX) (sum numbers.now) }
{
    let mut sum = 0;
    for number in numbers {
        sum = bounded_sum(sum, *number)?;
    }
    Some(sum)
}

// The sum of the absolute values, in the words that a loop is proved by.
fn sum_of_sizes(scores: &[i128]) -> Option<u128>
    ensures { SomeIff result (sum_by nat_abs scores.now ≤ MAX) (sum_by nat_abs scores.now) }
{
    let mut sum = 0;
    for score in scores {
        sum = bounded_sum(sum, score.unsigned_abs())?;
    }
    Some(sum)
}

// The sum of the absolute values, or None exactly where it passes MAX.
fn absolute_sum(scores: &[i128]) -> Option<u128>
    ensures { SomeIff result (absolute_sum scores.now ≤ MAX) (absolute_sum scores.now) }
{
    sum_of_sizes(scores)
}

/// The scores with the sum of their absolute values.
pub(crate) fn summed(list: Ints, scale: u128) -> Result<Scored, ScoreFault>
    ensures { IsScoredAs list scale result }
{
    let sum = absolute_sum(list.as_slice()).ok_or(ScoreFault::TooWide)?;
    Ok(Scored { list, scale, sum })
}
