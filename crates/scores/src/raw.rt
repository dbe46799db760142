// The values themselves as scores.
ghost use Rattle.std.specs.Prelude.{◌≡◌, ◌^◌};
ghost use Rattle.scores.specs.RawScores.{decimals, raw_score};
ghost use Rattle.scores.specs.ScoreSteps.{AreScoredBy};

use crate::kinds::{ScoreFault, TieScores};
use crate::spread::scores_of_all;
use crate::whole::{ONE, greatest_unit};
use midranks::tie_groups;
use std::alloc::Global;
use weights::Ints;

/// The values times the least power of ten that makes them whole, over that power.
pub(crate) fn raw(alloc: Global, values: &[i128]) -> Result<TieScores, ScoreFault>
    ensures { let d = decimals values.now in
        AreScoredBy (raw_score d) (10 ^ d) values.now result }
{
    let ties = tie_groups(alloc, values)?;
    let unit = greatest_unit(values);
    let mut scores = Ints::empty(alloc);
    for tie in ties.as_slice() {
        scores.push(tie.value / unit as i128)?;
    }
    scores_of_all(alloc, ties, scores, values, ONE / unit)
}
