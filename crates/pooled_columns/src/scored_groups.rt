// Groups by scores of a kind.
ghost use Rattle.std.specs.Prelude.{◌≡◌, ◌<◌, ◌≤◌, ◌^◌, length};
ghost use Rattle.weights.specs.Wide.{Prepares};
ghost use Rattle.completion_bounds.specs.Pairings.{greatest_score};
ghost use Rattle.midranks.specs.declared.TheConstants.{MOST_VALUES};
ghost use Rattle.sample_reader.specs.Data.{data_of};
ghost use Rattle.labelled.specs.LinearTests.{linear_label_test};
ghost use Rattle.pooled_columns.specs.ScoredGroups.{AreSubjectsOf, IsScoredBy, scored_groups};

use crate::columns::{Columns, columns_of};
use crate::subjects::labels_in;
use labelled::{Labelled, LinearSum, ScoredLabels};
use sample_reader::{Groups, pooled_subjects, values};
use scores::{ScoreFault, ScoreKind, Scored, TieScores, tie_scores};
use std::alloc::Global;
use weights::{Bytes, Ints, PrepareFault, WideOf, multinomial};

/// The pooled subjects of groups with their scores, by ascending value.
#[derive(Drop)]
pub struct ScoredSubjects {
    /// The numbers of their groups.
    pub labels: Bytes,
    pub scored: Scored,
    pub columns: Columns,
}

// The scores of values. A sum of scores that is too wide makes the statistic too wide.
fn scored_values(alloc: Global, kind: ScoreKind, values: &[i128]) -> Result<TieScores, PrepareFault>
    requires { length values.now ≤ MOST_VALUES }
    ensures { IsScoredBy kind values.now result }
{
    match tie_scores(alloc, kind, values) {
        Ok(scored) => Ok(scored),
        Err(ScoreFault::TooWide) => Err(PrepareFault::TooWide(WideOf::Statistic)),
        Err(ScoreFault::NoMemory) => Err(PrepareFault::NoMemory),
    }
}

/// The pooled subjects of groups with scores of a kind.
///
/// # Errors
/// `TooWide(Statistic)` where the sum of the absolute scores passes `weights::MAX`.
pub fn scored_subjects(
    alloc: Global,
    kind: ScoreKind,
    groups: &Groups,
) -> Result<ScoredSubjects, PrepareFault>
    ensures { AreSubjectsOf kind (data_of groups.now) result }
{
    let subjects = pooled_subjects(alloc, groups)?;
    let labels = labels_in(alloc, &subjects)?;
    let values = values(alloc, &subjects)?;
    let scored = scored_values(alloc, kind, values.as_slice())?;
    let scores = scored.scores;
    let columns = columns_of(alloc, scored.ties.as_slice(), scores)?;
    Ok(ScoredSubjects {
        labels,
        scored: scored.all,
        columns,
    })
}

/// Prepares the test of the sum, over the pooled subjects of groups, of the score of the group
/// times the subject's own score of a kind, over all labellings with the groups' sizes. The
/// greatest absolute score of a group is this one.
///
/// # Errors
/// `TooWide(Total)` where there are more labellings than `weights::MAX`. Or else
/// `TooWide(Statistic)` where twice the number of subjects times the greatest score of a group
/// times the sum of the absolute scores passes it. Or else `NoMemory` where memory runs out.
pub fn prepare_scored(
    alloc: Global,
    kind: ScoreKind,
    groups: &Groups,
    label_scores: Ints,
    greatest: u128,
) -> Result<Labelled<LinearSum>, PrepareFault>
    requires wide { length label_scores ≡ length groups.now.labels }
    requires greatest { greatest ≡ greatest_score label_scores }
    requires some { 1 ≤ greatest }
    requires small { greatest < 2 ^ 64 }
    ensures { Prepares linear_label_test
        (scored_groups kind label_scores (data_of groups.now)) result }
{
    let Some(total) = multinomial(groups.sizes.as_slice()) else {
        return Err(PrepareFault::TooWide(WideOf::Total));
    };
    let made = scored_subjects(alloc, kind, groups)?;
    let scored = made.scored;
    let columns = made.columns;
    let data = ScoredLabels {
        sizes: groups.sizes.copy()?,
        label_scores,
        scores: scored.list,
        columns: columns.sizes,
        column_scores: columns.scores,
        observed: made.labels,
        scale: scored.scale,
    };
    let sum = LinearSum::new(data, greatest, scored.sum)?;
    let frame = sum.frame(total);
    Ok(Labelled::framed(sum, frame))
}
