// Sums and multiples over strata.
ghost use Rattle.std.specs.Prelude.{◌≡◌, ◌<◌, ◌≤◌, ◌*◌, ◌/◌, nat_eq, if◌then◌else◌, SomeIff};
ghost use Rattle.std.specs.List.{sum_by};
ghost use Rattle.weights.specs.Numbers.{lcm};
ghost use Rattle.weights.specs.declared.TheConstants.{MAX};
ghost use Rattle.strata_cells.specs.Strata.{first_column, first_row, size};
ghost use Rattle.strata_cells.specs.StrataLimits.{AreSmall, IsSmall};
ghost use Rattle.stratified_tests.specs.StrataTests.{centre_by, multiple_of};

use strata_cells::Stratum;
use weights::lcm;

// A multiple with that of one more size, where it is not 0.
fn with_size(size: u64, multiple: u128) -> Option<u128>
    requires { multiple ≤ MAX }
    ensures { let all = if nat_eq size 0 then multiple else lcm size multiple in
        SomeIff result (all ≤ MAX) all }
{
    if size == 0 {
        Some(multiple)
    } else {
        lcm(size as u128, multiple)
    }
}

/// The least common multiple of the sizes that are not 0, or None exactly where it passes the
/// greatest statistic.
pub(crate) fn multiple_of(strata: &[Stratum]) -> Option<u128>
    requires { AreSmall strata.now }
    ensures { let all = multiple_of strata.now in SomeIff result (all ≤ MAX) all }
{
    let mut multiple = 1;
    for done in 0..strata.len() {
        multiple = with_size(strata[strata.len() - done - 1].size(), multiple)?;
    }
    Some(multiple)
}

// So many times the mean of a stratum's first cell.
fn centre_of(multiple: u128, stratum: Stratum) -> u128
    requires small { IsSmall stratum }
    requires fits { multiple * size stratum ≤ MAX }
    ensures { let product = first_row stratum * first_column stratum in
        result ≡ multiple / size stratum * product }
{
    let size = stratum.size();
    if size == 0 {
        return 0;
    }
    multiple / size as u128 * (stratum.first_row() as u128 * stratum.first_column() as u128)
}

/// So many times the mean of the sum of the first cells.
pub(crate) fn centre_by(multiple: u128, strata: &[Stratum]) -> u128
    requires small { AreSmall strata.now }
    requires fits { multiple * sum_by size strata.now ≤ MAX }
    ensures { result ≡ centre_by multiple strata.now }
{
    let mut centre = 0;
    for stratum in strata {
        centre += centre_of(multiple, *stratum);
    }
    centre
}
