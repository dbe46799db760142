// What the labellings of strata weigh together, with odds or without.
ghost use Rattle.std.specs.Prelude.{◌≡◌, ◌≤◌, SomeIff};
ghost use Rattle.weights.specs.declared.TheConstants.{MAX};
ghost use Rattle.weights.specs.Odds.{IsOdds};
ghost use Rattle.strata_cells.specs.StrataLimits.{AreSmall, IsSmall};
ghost use Rattle.stratified_tests.specs.StrataSteps.{AreOdds, strata_total, stratum_total, weighed};

use crate::odds::weighed_cell;
use strata_cells::{Stratum, labelled};
use weights::{Odds, bounded_product, bounded_sum};

// What the first cells of a stratum weigh by odds, or None exactly where that passes the greatest
// weight. Of many first cells the sum of a few passes it, so the loop is short.
fn weighed(odds: Odds, stratum: Stratum) -> Option<u128>
    requires odds { IsOdds odds }
    requires small { IsSmall stratum }
    ensures { SomeIff result (weighed odds stratum ≤ MAX) (weighed odds stratum) }
{
    let least = stratum.least_cell();
    let most = stratum.greatest_cell();
    let mut all = 0;
    for cell in least..most + 1 {
        all = bounded_sum(all, weighed_cell(Some(odds), stratum, cell)?)?;
    }
    Some(all)
}

/// What the labellings of a stratum weigh, or None exactly where that passes the greatest weight.
pub(crate) fn stratum_total(odds: Option<Odds>, stratum: Stratum) -> Option<u128>
    requires odds { AreOdds odds }
    requires small { IsSmall stratum }
    ensures { let all = stratum_total odds stratum in SomeIff result (all ≤ MAX) all }
{
    match odds {
        None => labelled(stratum),
        Some(odds) => weighed(odds, stratum),
    }
}

/// What the labellings of all strata weigh, or None exactly where that passes the greatest weight.
pub(crate) fn strata_total(odds: Option<Odds>, strata: &[Stratum]) -> Option<u128>
    requires odds { AreOdds odds }
    requires small { AreSmall strata.now }
    ensures { let all = strata_total odds strata.now in SomeIff result (all ≤ MAX) all }
{
    let mut all = 1;
    for stratum in strata {
        all = bounded_product(all, stratum_total(odds, *stratum)?)?;
    }
    Some(all)
}
