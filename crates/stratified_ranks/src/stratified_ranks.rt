// Samples in strata that are prepared for the rank sum test.
ghost use Rattle.weights.specs.Wide.{Prepares};
ghost use Rattle.sample_reader.specs.Data.{strata_data_of};
ghost use Rattle.stratified_ranks.specs.StratifiedRanks.{stratified_rank_test};

use crate::rank_made::made_of;
use crate::strata_rank_sum::StrataRankSum;
use labelled::Unweighted;
use sample_reader::StrataGroups;
use std::alloc::Global;
use weights::{PrepareFault, WideOf};

/// A stratified rank sum test whose data are checked.
pub type StratifiedRanks = Unweighted<StrataRankSum>;

/// Prepares the rank sum test of two samples in strata.
///
/// # Errors
/// `TooWide(Total)` where there are more labellings than `weights::MAX`, or else `NoMemory`
/// where memory runs out. The statistic of at most 10,000 subjects is never too wide.
pub fn prepare(alloc: Global, samples: &StrataGroups) -> Result<StratifiedRanks, PrepareFault>
    ensures { Prepares stratified_rank_test (strata_data_of samples.now) result }
{
    let Some((made, frame)) = made_of(alloc, samples)? else {
        return Err(PrepareFault::TooWide(WideOf::Total));
    };
    let sum = StrataRankSum::of(samples, made)?;
    Ok(Unweighted::of(sum, frame))
}
