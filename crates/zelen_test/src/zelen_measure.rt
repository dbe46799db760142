// The weight of the tables of strata as a measure of their rooms.
ghost use Rattle.std.specs.Prelude.{◌≡◌, ◌<◌, ◌≤◌, ℤ, length, drop, pos, IfOk};
ghost use Rattle.weights.specs.declared.TheConstants.{MAX};
ghost use Rattle.networks.specs.Judged.{JudgeFits};
ghost use Rattle.strata_cells.specs.Strata.{cell_weight, greatest_cell, least_cell};
ghost use Rattle.strata_cells.specs.StrataLimits.{IsSmall};
ghost use Rattle.zelen_test.specs.ZelenNetwork.{lesser_weight, lesser_weights};
ghost use Rattle.zelen_test.specs.ZelenSteps.{AreLesser, AreSumCounts, IsZelenMeasure, LesserSeat};

use crate::sum_counts::SumCounts;
use count_rooms::count_in;
use networks::{Interval, Judge};
use room_network::{Operation, ScalarMeasure};
use std::alloc::Global;
use strata_cells::{Stratum, cell_weight};
use weights::{List, NoMemory};

/// How many labellings give the tables that a labelling gives: the product over the strata of the
/// weights of their first cells.
///
/// Each later stratum multiplies it at least by the lesser weight of its least and its greatest
/// first cell, and all together at most by the number of their labellings with what is left of the
/// sum.
#[derive(Drop)]
pub struct ZelenMeasure {
    counts: SumCounts,
    // The products of the lesser weights of the later strata, the last stage first.
    lesser: List<u128>,
    judge: Judge,
    ghost right: { IsZelenMeasure counts.strata lesser judge },
}

// The lesser of what the least and the greatest first cell weigh. One of them may pass the greatest
// weight.
fn lesser_weight(stratum: Stratum) -> u128
    requires small { IsSmall stratum }
    requires fits { lesser_weight stratum ≤ MAX }
    ensures { result ≡ lesser_weight stratum }
{
    let least = cell_weight(stratum, stratum.least_cell());
    let most = cell_weight(stratum, stratum.greatest_cell());
    match (least, most) {
        (Some(least), Some(most)) => least.min(most),
        (Some(least), None) => least,
        (None, Some(most)) => most,
        (None, None) => unreachable!(),
    }
}

// What is known of the stratum before those that are done. It does nothing.
#[inline(always)]
fn lesser_seat(_counts: &SumCounts, _strata: &[Stratum], _done: usize)
    requires same { _strata.now ≡ _counts.now.strata }
    requires before { _done < length _strata.now }
    ensures { LesserSeat _strata.now _done }
{}

// The products of the lesser weights, from the last stratum back.
fn lesser_weights(alloc: Global, counts: &SumCounts) -> Result<List<u128>, NoMemory>
    ensures { IfOk result (AreLesser counts.now.strata 0) }
{
    let strata = counts.strata.as_slice();
    let mut product = 1;
    let mut products = List::empty(alloc);
    products.push(product)?;
    for done in 0..strata.len() {
        lesser_seat(counts, strata, done);
        product *= lesser_weight(strata[strata.len() - done - 1]);
        products.push(product)?;
    }
    Ok(products)
}

/// A weight as partials hold it.
#[inline(always)]
pub(crate) fn held(weight: u128) -> i128
    requires { weight ≤ MAX }
    ensures { result ≡ pos weight }
{
    weight as i128
}

impl ZelenMeasure {
    /// The measure of the strata, with verdicts by the judge's rules.
    pub(crate) fn new(
        alloc: Global,
        counts: SumCounts,
        judge: Judge,
    ) -> Result<ZelenMeasure, NoMemory>
        requires { (v : ℤ) → JudgeFits judge v }
        ensures counts { IfOk result (λ made. made.counts ≡ counts) }
        ensures judge { IfOk result (λ made. made.judge ≡ judge) }
    {
        let lesser = lesser_weights(alloc, &counts)?;
        Ok(ZelenMeasure {
            counts,
            lesser,
            judge,
        })
    }

    // By what the strata from a stage on multiply a product at least.
    fn least_factor(&self, stage: usize) -> u128
        requires { stage ≤ length self.now.counts.strata }
        ensures { result ≡ lesser_weights (drop stage self.now.counts.strata) }
    {
        self.lesser.as_slice()[self.counts.strata.len() - stage]
    }
}

impl ScalarMeasure for ZelenMeasure {
    ghost use Rattle.zelen_test.specs.ZelenNetwork.{zelen_floor, zelen_numbers};

    ghost floor = { λ m. zelen_floor m.counts.strata m.counts.sum };

    ghost numbers = { λ m. zelen_numbers m.counts.strata m.judge };

    #[inline(always)]
    fn judge(&self) -> &Judge {
        &self.judge
    }

    #[inline(always)]
    fn operation(&self) -> Operation {
        Operation::Product
    }

    #[inline(always)]
    fn number(&self, stage: usize, room: &[i128], choice: &[u64]) -> i128 {
        self.counts.choice_seat(stage, room, choice);
        held(self.counts.weight(stage, choice[0]))
    }

    #[inline(always)]
    fn later(&self, stage: usize, room: &[i128]) -> Interval {
        self.counts.seat(stage, room);
        Interval {
            low: held(self.least_factor(stage)),
            high: held(self.counts.number(stage, count_in(room))),
        }
    }
}
