// The stages of a network of strata.
ghost use Rattle.std.specs.Prelude.{◌≡◌, ◌≤◌, pos};
ghost use Rattle.weights.specs.declared.TheConstants.{MAX};
ghost use Rattle.strata_cells.specs.Strata.{greatest_cell, least_cell};
ghost use Rattle.strata_cells.specs.StrataLimits.{IsSmall};
ghost use Rattle.stratified_tests.specs.StrataNetwork.{weighed_cell};
ghost use Rattle.stratified_tests.specs.StrataSteps.{AreOdds, AreStages};

use crate::odds::weighed_cell;
use crate::totals::stratum_total;
use networks::{Additive, Interval, Judge, SumValue};
use strata_cells::Stratum;
use weights::{List, Odds};

/// Each stratum is a stage, and its first cell the choice.
#[derive(Drop)]
pub struct FirstCellStages {
    pub(crate) odds: Option<Odds>,
    pub(crate) strata: List<Stratum>,
    pub(crate) judge: Judge,
    ghost sound: { AreStages odds strata judge },
}

// What a first cell weighs.
fn weight(odds: Option<Odds>, stratum: Stratum, cell: u64) -> u128
    requires odds { AreOdds odds }
    requires small { IsSmall stratum }
    requires least { least_cell stratum ≤ cell }
    requires greatest { cell ≤ greatest_cell stratum }
    requires fits { weighed_cell odds stratum cell ≤ MAX }
    ensures { result ≡ weighed_cell odds stratum cell }
{
    match weighed_cell(odds, stratum, cell) {
        Some(weight) => weight,
        None => unreachable!(),
    }
}

impl Additive for FirstCellStages {
    ghost use Rattle.stratified_tests.specs.StrataNetwork.{strata_addends};

    ghost addends = { λ s. strata_addends s.odds s.strata s.judge };

    fn stages(&self) -> usize {
        self.strata.len()
    }

    fn slots(&self) -> usize {
        1
    }

    fn choice_width(&self) -> usize {
        1
    }

    fn first_choice(&self, stage: usize, choice: &mut [u64]) {
        choice[0] = self.strata.as_slice()[stage].least_cell();
    }

    fn next_choice(&self, stage: usize, choice: &mut [u64]) -> bool {
        if choice[0] < self.strata.as_slice()[stage].greatest_cell() {
            choice[0] += 1;
            true
        } else {
            false
        }
    }

    fn adds(&self, stage: usize, choice: &[u64], added: &mut [i128]) -> u128 {
        added[0] = choice[0] as i128;
        weight(self.odds, self.strata.as_slice()[stage], choice[0])
    }

    fn total(&self, stage: usize) -> u128 {
        match stratum_total(self.odds, self.strata.as_slice()[stage]) {
            Some(all) => all,
            None => unreachable!(),
        }
    }

    fn range(&self, stage: usize) -> Interval {
        let stratum = self.strata.as_slice()[stage];
        Interval {
            low: stratum.least_cell() as i128,
            high: stratum.greatest_cell() as i128,
        }
    }

    fn is_sorted(&self) -> bool {
        false
    }

    fn value(&self) -> SumValue {
        SumValue::First
    }

    fn judge(&self) -> Judge {
        self.judge
    }
}
