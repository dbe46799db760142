// The scores of all values, from those of their tie groups.
ghost use Rattle.std.specs.Prelude.{◌≡◌, ℤ, length, map, IfOk};
ghost use Rattle.midranks.specs.Ties.{tie_groups};
ghost use Rattle.scores.specs.ScoreSteps.{AreScoredBy};

use crate::kinds::{ScoreFault, TieScores};
use crate::sums::summed;
use midranks::{Tie, Ties, group_of};
use std::alloc::Global;
use weights::{Ints, NoMemory};

/// The score of each value, from those of the tie groups.
pub(crate) fn spread(
    alloc: Global,
    ties: &[Tie],
    scores: &[i128],
    values: &[i128],
) -> Result<Ints, NoMemory>
    requires groups { ties.now ≡ tie_groups values.now }
    requires as_many { length scores.now ≡ length ties.now }
    ensures { IfOk result (λ list. (f : ℤ → ℤ) → scores.now ≡ map (λ t. f t.value) ties.now
        → list ≡ map f values.now) }
{
    let mut list = Ints::empty(alloc);
    for value in values {
        list.push(scores[group_of(ties, *value)])?;
    }
    Ok(list)
}

/// The scores of tie groups, and of all values.
pub(crate) fn scores_of_all(
    alloc: Global,
    ties: Ties,
    scores: Ints,
    values: &[i128],
    scale: u128,
) -> Result<TieScores, ScoreFault>
    requires groups { ties ≡ tie_groups values.now }
    requires as_many { length scores ≡ length ties }
    ensures { (f : ℤ → ℤ) → scores ≡ map (λ t. f t.value) ties
        → AreScoredBy f scale values.now result }
{
    let list = spread(alloc, ties.as_slice(), scores.as_slice(), values)?;
    let all = summed(list, scale)?;
    Ok(TieScores { ties, scores, all })
}
