// What the labellings of a table with odds weigh.
ghost use Rattle.std.specs.Prelude.{◌≡◌, ◌+◌, ◌-◌, ◌^◌, ◌<◌, ◌≤◌, SomeIff};
ghost use Rattle.weights.specs.declared.TheConstants.{MAX};
ghost use Rattle.weights.specs.Odds.{IsOdds, odds_weight};
ghost use Rattle.two_by_two.specs.OddsNetworks.{odds_at};
ghost use Rattle.two_by_two.specs.OddsSteps.{cell_weight, cells_weight};

use weights::{Odds, binomial, bounded_product, bounded_sum, power};

/// A power that passes no limit.
pub(crate) fn exact_power(base: u64, exponent: u64) -> u128
    requires { base ^ exponent ≤ MAX }
    ensures { result ≡ base ^ exponent }
{
    match power(base as u128, exponent) {
        Some(value) => value,
        None => unreachable!(),
    }
}

/// What a subject of the first row weighs in a column.
pub(crate) fn odds_at(odds: Odds, column: usize) -> u64
    ensures { result ≡ odds_at odds column }
{
    if column == 0 { odds.above } else { odds.below }
}

/// The weight of a labelling with this first cell, where the first row has `upper` subjects.
pub(crate) fn odds_weight(odds: Odds, upper: u64, cell: u64) -> u128
    requires within { cell ≤ upper }
    requires above { odds.above ^ cell ≤ MAX }
    requires below { odds.below ^ (upper - cell) ≤ MAX }
    requires fits { odds_weight odds upper cell ≤ MAX }
    ensures { result ≡ odds_weight odds upper cell }
{
    exact_power(odds.above, cell) * exact_power(odds.below, upper - cell)
}

// What all labellings with a first cell weigh, or None exactly where that passes the greatest
// weight. The columns have `left` and `right` subjects, and the first row `upper`.
fn weigh_cell(odds: Odds, left: u64, right: u64, upper: u64, cell: u64) -> Option<u128>
    requires odds { IsOdds odds }
    requires left { cell ≤ left }
    requires upper { cell ≤ upper }
    requires right { upper ≤ right + cell }
    ensures { let weight = cell_weight odds left right upper cell in
        SomeIff result (weight ≤ MAX) weight }
{
    let other = upper - cell;
    let chosen = binomial(left, cell)?;
    let others = binomial(right, other)?;
    let above = power(odds.above as u128, cell)?;
    let below = power(odds.below as u128, other)?;
    let ways = bounded_product(chosen, others)?;
    let each = bounded_product(above, below)?;
    bounded_product(ways, each)
}

/// What all labellings of a table weigh, or None exactly where that passes the greatest weight. The
/// columns have `left` and `right` subjects, and the first row `upper`.
pub(crate) fn weigh_cells(odds: Odds, left: u64, right: u64, upper: u64) -> Option<u128>
    requires odds { IsOdds odds }
    requires level { upper ≤ left + right }
    requires units { left + right + 1 < 2 ^ 64 }
    ensures { let all = cells_weight odds left right upper in SomeIff result (all ≤ MAX) all }
{
    let least = upper.saturating_sub(right);
    let most = upper.min(left);
    let mut all = 0;
    for cell in least..most + 1 {
        let weight = weigh_cell(odds, left, right, upper, cell)?;
        all = bounded_sum(all, weight)?;
    }
    Some(all)
}
