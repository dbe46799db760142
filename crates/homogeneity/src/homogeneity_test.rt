// The tests over strata, under one type.
ghost use Rattle.weights.specs.Wide.{Prepares};
ghost use Rattle.sample_reader.specs.Data.{strata_data_of};
ghost use Rattle.homogeneity.specs.Homogeneities.{homogeneity_test};

use networks::OneOf;
use sample_reader::StrataGroups;
use std::alloc::Global;
use stratified_ranks::StratifiedRanks;
use table_reader::Strata;
use weights::PrepareFault;
use zelen_test::Zelen;

/// A test over strata whose data are checked: Zelen's, of the odds ratios of tables of two rows and
/// two columns, or the rank sum test of two samples in strata.
pub type Homogeneity = OneOf<Zelen, StratifiedRanks>;

/// Prepares the exact test that the odds ratio is the same in all strata, over the labellings of
/// each stratum's subjects with the sums of its rows whose first cells together have the sum that
/// they have as they are (Zelen, The analysis of several 2 x 2 contingency tables, Biometrika 58,
/// 1971): the number of these labellings that give the first cells. It has the tail `two` alone.
///
/// # Errors
/// `TooWide(Total)` where there are more of these labellings than `weights::MAX`, or else
/// `NoMemory` where memory runs out. The statistic is never too wide.
pub fn prepare_zelen(alloc: Global, strata: &Strata) -> Result<Homogeneity, PrepareFault>
    ensures { Prepares homogeneity_test (OneOf.First strata.now.cells) result }
{
    Ok(OneOf::First(Zelen::prepare(alloc, strata)?))
}

/// Prepares the rank sum test of two samples in strata, over all labellings of each stratum's
/// subjects with its sizes of both groups: the sum of the second group's ranks, each among the
/// values of its own stratum (Lehmann, Nonparametrics, chapter 3). Every rank counts alike: the
/// statistic of van Elteren weighs each stratum's sum by 1 / (N + 1).
///
/// # Errors
/// `TooWide(Total)` where there are more labellings than `weights::MAX`, or else `NoMemory` where
/// memory runs out. The statistic of at most 10,000 subjects is never too wide.
pub fn prepare_ranks(alloc: Global, samples: &StrataGroups) -> Result<Homogeneity, PrepareFault>
    ensures { Prepares homogeneity_test (OneOf.Second (strata_data_of samples.now)) result }
{
    Ok(OneOf::Second(stratified_ranks::prepare(alloc, samples)?))
}
