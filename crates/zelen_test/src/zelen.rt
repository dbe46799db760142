// Strata that are prepared for Zelen's test.
ghost use Rattle.std.specs.Prelude.{◌≡◌, ◌<◌, ◌≤◌, length, Contains, IfOk, MatchOption, SomeIff};
ghost use Rattle.weights.specs.Frames.{IsFrameOf};
ghost use Rattle.weights.specs.Wide.{Prepares};
ghost use Rattle.weights.specs.declared.TheConstants.{MAX};
ghost use Rattle.record_reader.specs.declared.TheConstants.{MOST_ROWS};
ghost use Rattle.strata_cells.specs.Strata.{strata_of};
ghost use Rattle.strata_cells.specs.StrataLimits.{AreSmall};
ghost use Rattle.zelen_test.specs.Zelen.{observed_sum_labellings, observed_sum_test, zelen_test};
ghost use Rattle.zelen_test.specs.ZelenMade.{AreObserved, IsMember};
ghost use Rattle.zelen_test.specs.ZelenNetwork.{number_with, own_sum};
ghost use Rattle.zelen_test.specs.ZelenSteps.{AreSummed};

use crate::cell_weights::own_weight;
use crate::sum_counts::SumCounts;
use crate::zelen_measure::held;
use std::alloc::Global;
use std::marker::Model;
use strata_cells::{Stratum, own_sum, sizes, strata_of};
use table_reader::Strata;
use weights::{Frame, List, NoMemory, Nums, PrepareFault, Rule, WideOf};

/// What is made of strata.
#[derive(Drop)]
pub(crate) struct ObservedStrata {
    pub strata: List<Stratum>,
    /// Their sizes, for the walk, and the sum of their first cells.
    pub sizes: Nums,
    pub sum: u64,
    /// The observed statistic, its scale, the total and the rule of both sides.
    pub frame: Frame,
}

/// Zelen's test of strata whose data are checked. It is seen as the cells that it was prepared of,
/// four for each stratum.
#[derive(Drop)]
pub struct Zelen {
    // What it was prepared of, by which contracts name it.
    cells: Nums,
    made: ObservedStrata,
}

impl Model for Zelen {
    ghost use Rattle.std.specs.Prelude.{ℕ, List};
    ghost use Rattle.strata_cells.specs.Strata.{strata_of};
    ghost use Rattle.zelen_test.specs.ZelenMade.{AreObserved};

    ghost Value = { List ℕ };

    ghost view = { λ t. t.cells };

    ghost invariant = { λ t. AreObserved (strata_of t.cells) t.made };
}

// How many labellings of strata have the sum, or None exactly where they pass the greatest weight.
fn total_of(alloc: Global, strata: &List<Stratum>, sum: u64) -> Result<Option<u128>, NoMemory>
    requires { AreSummed strata.now sum }
    ensures { let number = number_with strata.now sum in
        IfOk result (λ found. SomeIff found (number ≤ MAX) number) }
{
    let Some(counts) = SumCounts::of(alloc, strata.copy()?, sum)? else {
        return Ok(None);
    };
    Ok(Some(counts.number(0, sum)))
}

// What is said of the test of strata of which so many labellings have the sum.
fn frame_of(strata: &[Stratum], total: u128) -> Frame
    requires small { AreSmall strata.now }
    requires total { total ≡ number_with strata.now (own_sum strata.now) }
    requires fits { total ≤ MAX }
    ensures { IsFrameOf (observed_sum_test strata.now) result }
{
    let weight = held(own_weight(strata));
    Frame {
        statistic: weight,
        scale: total,
        total,
        two: Rule::AtMost(weight),
    }
}

// What is known of the strata of a file. It does nothing.
#[inline(always)]
fn tables_fit(_strata: &Strata)
    ensures small { AreSmall (strata_of _strata.now.cells) }
    ensures few { length (strata_of _strata.now.cells) ≤ MOST_ROWS }
    ensures can { let tables = strata_of _strata.now.cells in AreSummed tables (own_sum tables) }
{}

// What is made of strata, or None exactly where the labellings with their sum pass the greatest
// weight.
fn made_of(alloc: Global, strata: &Strata) -> Result<Option<ObservedStrata>, NoMemory>
    ensures { let tables = strata_of strata.now.cells in
        IfOk result (λ found. MatchOption found (MAX < number_with tables (own_sum tables))
        (AreObserved tables)) }
{
    tables_fit(strata);
    let strata = strata_of(alloc, strata.cells.as_slice())?;
    let sum = own_sum(strata.as_slice());
    let Some(total) = total_of(alloc, &strata, sum)? else {
        return Ok(None);
    };
    let frame = frame_of(strata.as_slice(), total);
    let sizes = sizes(alloc, strata.as_slice())?;
    Ok(Some(ObservedStrata {
        strata,
        sizes,
        sum,
        frame,
    }))
}

impl Zelen {
    /// Prepares Zelen's test: the labellings of all strata whose first cells have the sum that they
    /// have as they are.
    ///
    /// # Errors
    /// `TooWide(Total)` where there are more of these labellings than `weights::MAX`, or else
    /// `NoMemory` where memory runs out. The statistic is never too wide.
    pub fn prepare(alloc: Global, strata: &Strata) -> Result<Zelen, PrepareFault>
        ensures { Prepares zelen_test strata.now.cells result }
    {
        let Some(made) = made_of(alloc, strata)? else {
            return Err(PrepareFault::TooWide(WideOf::Total));
        };
        let cells = strata.cells.copy()?;
        Ok(Zelen { cells, made })
    }

    /// What was made of the strata.
    pub(crate) fn made(&self) -> &ObservedStrata
        ensures { AreObserved (strata_of self.now) result.now }
    {
        &self.made
    }

    /// What is known of a member. It does nothing but see what was made.
    #[inline(always)]
    pub(crate) fn member(&self, _labels: &[u8])
        requires { Contains (observed_sum_labellings (strata_of self.now)) _labels.now }
        ensures { IsMember (strata_of self.now) _labels.now }
    {
        let _made = self.made();
    }
}
