// Several groups that are prepared for the test of Kruskal and Wallis.
ghost use Rattle.weights.specs.Wide.{Prepares};
ghost use Rattle.sample_reader.specs.Data.{data_of};
ghost use Rattle.kruskal_wallis.specs.KruskalWallis.{kruskal_wallis_test};
ghost use Rattle.kruskal_wallis.specs.RankSumSteps.{AreScored};

use crate::group_scores::{GroupScores, made_of};
use labelled::Labelled;
use sample_reader::{Groups, Labels};
use scores::ScoreKind;
use std::alloc::Global;
use std::marker::Model;
use weights::{Ints, Nums, PrepareFault, WideOf, multinomial};

/// A test of Kruskal and Wallis whose data are checked.
pub type KruskalWallis = Labelled<SquaredSums>;

/// The sum of the groups' squared sums of scores, each over the group's size. It is seen as the
/// kind of scores and the groups that it was prepared of.
#[derive(Drop)]
pub struct SquaredSums {
    // What it was prepared of, by which contracts name it.
    kind: ScoreKind,
    labels: Labels,
    members: Nums,
    values: Ints,
    made: GroupScores,
}

impl Model for SquaredSums {
    ghost use Rattle.kruskal_wallis.specs.KruskalWallis.{ScoredGroups, scored_groups_of};
    ghost use Rattle.kruskal_wallis.specs.RankSumSteps.{AreScored};

    ghost Value = { ScoredGroups };

    ghost view = { λ t. scored_groups_of t.kind t.labels t.members t.values };

    ghost invariant = { λ t.
        AreScored (scored_groups_of t.kind t.labels t.members t.values) t.made };
}

impl SquaredSums {
    /// What was made of the groups.
    pub(crate) fn made(&self) -> &GroupScores
        ensures { AreScored self.now result.now }
    {
        &self.made
    }
}

/// Prepares groups by the scores of a kind.
pub fn prepare(
    alloc: Global,
    kind: ScoreKind,
    groups: &Groups,
) -> Result<KruskalWallis, PrepareFault>
    ensures { Prepares kruskal_wallis_test
        (record { kind = kind; groups = data_of groups.now }) result }
{
    let Some(total) = multinomial(groups.sizes.as_slice()) else {
        return Err(PrepareFault::TooWide(WideOf::Total));
    };
    let made = made_of(alloc, kind, groups)?;
    let observed = made.labels.copy()?;
    let scale = made.scale;
    let sums = SquaredSums {
        kind,
        labels: groups.labels.copy()?,
        members: groups.members.copy()?,
        values: groups.values.copy()?,
        made,
    };
    Ok(Labelled::new(sums, observed.as_slice(), scale, 0, 0, total))
}
