// What is made of samples in strata for the rank sum test.
ghost use Rattle.std.specs.Prelude.{◌≡◌, ◌+◌, ◌<◌, ◌≤◌, map, pos, IfOk, MatchOption};
ghost use Rattle.weights.specs.Conditional.{distance, total};
ghost use Rattle.weights.specs.Frames.{IsFrameOf};
ghost use Rattle.weights.specs.Numbers.{absolute_sum};
ghost use Rattle.weights.specs.declared.TheConstants.{MAX};
ghost use Rattle.scores.specs.Scores.{labelled_sum};
ghost use Rattle.sample_reader.specs.Data.{strata_data_of};
ghost use Rattle.stratified_ranks.specs.RankMade.{AreRanked, RanksFit, StrataFacts};
ghost use Rattle.stratified_ranks.specs.StrataSteps.{part_of, parts_total};
ghost use Rattle.stratified_ranks.specs.StratifiedRanks.{strata_subjects, stratified_rank_test};

use crate::part_numbers::{centre_of, parts_total, sizes_of};
use crate::rank_strata::{Part, RankStrata};
use sample_reader::StrataGroups;
use scores::labelled_sum;
use std::alloc::Global;
use weights::{Frame, NoMemory, Nums, Rule};

/// What is made of the strata of samples.
#[derive(Drop)]
pub(crate) struct RankedStrata {
    pub strata: RankStrata,
    /// The strata's sizes, for the walk.
    pub sizes: Nums,
}

// What is said of the test of so many labellings.
fn frame_of(ranks: &[i128], labels: &[u8], centre: u128, total: u128) -> Frame
    requires fits { absolute_sum ranks.now + absolute_sum ranks.now ≤ MAX }
    requires centre { centre ≤ absolute_sum ranks.now }
    ensures { let statistic = labelled_sum 1 ranks.now labels.now in
        result ≡ record {
          statistic = statistic;
          scale = 2;
          total = total;
          two = Rule.Far 1 (pos centre) (distance 1 (pos centre) statistic);
        } }
{
    let statistic = labelled_sum(ranks, labels, 1);
    Frame {
        statistic,
        scale: 2,
        total,
        two: Rule::far(1, centre as i128, statistic),
    }
}

// What is known of samples that were read. It does nothing.
#[inline(always)]
fn strata_fit(_samples: &StrataGroups)
    ensures { StrataFacts (strata_data_of _samples.now) }
{}

// And of their ranks, where their labellings pass no limit. It does nothing.
#[inline(always)]
fn ranks_fit(_samples: &StrataGroups, _parts: &[Part])
    requires parts { _parts.now ≡ map part_of (strata_subjects (strata_data_of _samples.now)) }
    requires fits { parts_total _parts.now ≤ MAX }
    ensures { RanksFit (strata_data_of _samples.now) _parts.now }
{}

/// What is made of samples in strata, and what is said of their test, or None exactly where their
/// labellings pass the greatest weight.
pub(crate) fn made_of(
    alloc: Global,
    samples: &StrataGroups,
) -> Result<Option<(RankedStrata, Frame)>, NoMemory>
    ensures { let given = strata_data_of samples.now in IfOk result (λ found.
        MatchOption found (MAX < total (stratified_rank_test given)) (λ made.
        AreRanked given made.0 × IsFrameOf (stratified_rank_test given) made.1)) }
{
    strata_fit(samples);
    let strata = RankStrata::of(alloc, samples)?;
    let parts = strata.parts.as_slice();
    let Some(total) = parts_total(parts) else {
        return Ok(None);
    };
    ranks_fit(samples, parts);
    let sizes = sizes_of(alloc, parts)?;
    let centre = centre_of(parts);
    let frame = frame_of(
        strata.ranks.as_slice(),
        strata.labels.as_slice(),
        centre,
        total,
    );
    Ok(Some((RankedStrata { strata, sizes }, frame)))
}
