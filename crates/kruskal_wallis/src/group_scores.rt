// Several groups with their scores.
ghost use Rattle.std.specs.Prelude.{◌*◌, ◌≤◌, SomeIff};
ghost use Rattle.weights.specs.Labellings.{number_of_labellings};
ghost use Rattle.weights.specs.declared.TheConstants.{MAX};
ghost use Rattle.sample_reader.specs.Data.{data_of};
ghost use Rattle.kruskal_wallis.specs.RankSumSteps.{IsMadeOf};

use crate::group_sums::size_factors;
use pooled_columns::{Columns, scored_subjects};
use sample_reader::Groups;
use scores::{ScoreKind, common_multiple};
use std::alloc::Global;
use weights::{Bytes, Ints, Nums, PrepareFault, WideOf, bounded_product};

/// Several groups, scored.
#[derive(Drop)]
pub(crate) struct GroupScores {
    /// How many subjects each group has, and the numbers of the subjects' groups.
    pub sizes: Nums,
    pub labels: Bytes,
    /// The least common multiple of the sizes, divided by each.
    pub factors: Vec<u128>,
    /// What no sum of squares passes.
    pub bound: u128,
    /// The scale of the statistic.
    pub scale: u128,
    /// The subjects' scores, by ascending value.
    pub scores: Ints,
    /// The sum of their absolute values.
    pub sum: u128,
    pub columns: Columns,
}

// A multiple times the square of a number, or None exactly where that passes the greatest
// statistic.
fn times_square(multiple: u128, number: u128) -> Option<u128>
    requires { 1 ≤ multiple }
    ensures { SomeIff result (multiple * (number * number) ≤ MAX) (multiple * (number * number)) }
{
    let square = bounded_product(number, number)?;
    bounded_product(multiple, square)
}

/// Several groups, scored. They are refused exactly where the test's bound is too wide.
pub(crate) fn made_of(
    alloc: Global,
    kind: ScoreKind,
    groups: &Groups,
) -> Result<GroupScores, PrepareFault>
    requires { number_of_labellings groups.now.sizes ≤ MAX }
    ensures { IsMadeOf (record { kind = kind; groups = data_of groups.now }) result }
{
    let sizes = groups.sizes.copy()?;
    let made = scored_subjects(alloc, kind, groups)?;
    let scored = made.scored;
    let Some(multiple) = common_multiple(sizes.as_slice()) else {
        return Err(PrepareFault::TooWide(WideOf::Statistic));
    };
    let Some(bound) = times_square(multiple, scored.sum.max(scored.scale)) else {
        return Err(PrepareFault::TooWide(WideOf::Statistic));
    };
    let factors = size_factors(alloc, multiple, sizes.as_slice())?;
    let scale = multiple * (scored.scale * scored.scale);
    Ok(GroupScores {
        sizes,
        labels: made.labels,
        factors,
        bound,
        scale,
        scores: scored.list,
        sum: scored.sum,
        columns: made.columns,
    })
}
