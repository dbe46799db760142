// Wilcoxon's scores.
ghost use Rattle.std.specs.Prelude.{◌≤◌, length};
ghost use Rattle.midranks.specs.declared.TheConstants.{MOST_VALUES};
ghost use Rattle.scores.specs.Scores.{score_of};
ghost use Rattle.scores.specs.ScoreSteps.{AreScoredBy};

use crate::kinds::{ScoreFault, ScoreKind, TieScores};
use crate::spread::scores_of_all;
use midranks::{MOST_VALUES, group_ranks, tie_groups};
use std::alloc::Global;
use weights::Ints;

/// The doubled midranks, over 2.
pub(crate) fn wilcoxon(alloc: Global, values: &[i128]) -> Result<TieScores, ScoreFault>
    requires { length values.now ≤ MOST_VALUES }
    ensures { AreScoredBy (score_of ScoreKind.Wilcoxon values.now) 2 values.now result }
{
    let ties = tie_groups(alloc, values)?;
    let ranks = group_ranks(alloc, ties.as_slice())?;
    let mut scores = Ints::empty(alloc);
    for rank in ranks.as_slice() {
        scores.push(*rank as i128)?;
    }
    scores_of_all(alloc, ties, scores, values, 2)
}
