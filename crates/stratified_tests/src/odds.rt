// What labellings weigh by given odds.
ghost use Rattle.std.specs.Prelude.{◌≡◌, ◌≤◌, length, SomeIff};
ghost use Rattle.std.specs.List.{sum_by};
ghost use Rattle.weights.specs.declared.TheConstants.{MAX};
ghost use Rattle.record_reader.specs.declared.TheConstants.{MOST_ROWS};
ghost use Rattle.weights.specs.Odds.{IsOdds, odds_weight};
ghost use Rattle.strata_cells.specs.Strata.{first_cells, first_row, greatest_cell, least_cell};
ghost use Rattle.strata_cells.specs.StrataLimits.{AreSmall, IsSmall};
ghost use Rattle.stratified_tests.specs.StrataNetwork.{weighed_cell};
ghost use Rattle.stratified_tests.specs.StrataTests.{weight_by};
ghost use Rattle.stratified_tests.specs.StrataSteps.{AreOdds};

use strata_cells::{Stratum, cell_weight, first_cells, first_rows};
use weights::{Odds, bounded_product, power};

// What a sum of first cells weighs, of so many subjects in the first rows, or None exactly where
// that passes the greatest weight.
fn odds_weight(odds: Odds, subjects: u64, cell: u64) -> Option<u128>
    requires { IsOdds odds }
    ensures { let weight = odds_weight odds subjects cell in SomeIff result (weight ≤ MAX) weight }
{
    let above = power(odds.above as u128, cell)?;
    let below = power(odds.below as u128, subjects.saturating_sub(cell))?;
    bounded_product(above, below)
}

/// What a first cell of a stratum weighs, or None exactly where that passes the greatest weight.
pub(crate) fn weighed_cell(odds: Option<Odds>, stratum: Stratum, cell: u64) -> Option<u128>
    requires odds { AreOdds odds }
    requires small { IsSmall stratum }
    requires least { least_cell stratum ≤ cell }
    requires greatest { cell ≤ greatest_cell stratum }
    ensures { let weight = weighed_cell odds stratum cell in SomeIff result (weight ≤ MAX) weight }
{
    let ways = cell_weight(stratum, cell)?;
    let Some(odds) = odds else {
        return Some(ways);
    };
    let weight = odds_weight(odds, stratum.first_row(), cell)?;
    bounded_product(ways, weight)
}

/// What a labelling weighs: 1, or by the odds where they are given.
pub(crate) fn labelling_weight(odds: Option<Odds>, strata: &[Stratum], labels: &[u8]) -> u128
    requires odds { AreOdds odds }
    requires small { AreSmall strata.now }
    requires few { length strata.now ≤ MOST_ROWS }
    requires fits { let cells = first_cells strata.now labels.now in
        weight_by odds (sum_by first_row strata.now) cells ≤ MAX }
    ensures { let cells = first_cells strata.now labels.now in
        result ≡ weight_by odds (sum_by first_row strata.now) cells }
{
    let Some(odds) = odds else {
        return 1;
    };
    match odds_weight(odds, first_rows(strata), first_cells(strata, labels)) {
        Some(weight) => weight,
        None => unreachable!(),
    }
}
