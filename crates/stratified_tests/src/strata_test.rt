// Strata that are prepared for their test.
ghost use Rattle.std.specs.Prelude.{◌≡◌, ◌≤◌, ◌*◌, length, pos, None, Some};
ghost use Rattle.std.specs.List.{sum_by};
ghost use Rattle.weights.specs.Conditional.{distance};
ghost use Rattle.weights.specs.Wide.{Prepares};
ghost use Rattle.weights.specs.declared.TheConstants.{MAX};
ghost use Rattle.record_reader.specs.declared.TheConstants.{MOST_ROWS};
ghost use Rattle.weights.specs.Odds.{IsOdds};
ghost use Rattle.networks.specs.Judged.{judge_of};
ghost use Rattle.strata_cells.specs.Strata.{size, strata_of};
ghost use Rattle.strata_cells.specs.StrataLimits.{AreSmall};
ghost use Rattle.stratified_tests.specs.StrataTests.{centre_by, data_of, multiple_of, strata_test};
ghost use Rattle.stratified_tests.specs.StrataSteps.{AreMade, AreOdds};

use crate::sums::{centre_by, multiple_of};
use crate::totals::strata_total;
use networks::Judge;
use std::alloc::Global;
use std::marker::Model;
use strata_cells::{Stratum, own_sum, sizes, strata_of, subjects};
use table_reader::Strata;
use weights::{Frame, List, Nums, Odds, PrepareFault, Rule, WideOf, bounded_product};

/// What is made of strata.
#[derive(Drop)]
pub(crate) struct MadeStrata {
    pub strata: List<Stratum>,
    /// Their sizes, for the walk.
    pub sizes: Nums,
    /// The observed statistic, its scale, the total and the rule of both sides.
    pub frame: Frame,
}

/// A test of strata whose data are checked. It is seen as what it was prepared of: the cells, four
/// for each stratum, and the odds, where they are given.
#[derive(Drop)]
pub struct StrataTest {
    // What it was prepared of, by which contracts name it.
    cells: Nums,
    odds: Option<Odds>,
    made: MadeStrata,
}

impl Model for StrataTest {
    ghost use Rattle.strata_cells.specs.Strata.{strata_of};
    ghost use Rattle.stratified_tests.specs.StrataTests.{StrataData, data_of};
    ghost use Rattle.stratified_tests.specs.StrataSteps.{AreMade};

    ghost Value = { StrataData };

    ghost view = { λ t. data_of t.odds t.cells };

    ghost invariant = { λ t. AreMade t.odds (strata_of t.cells) t.made };
}

// What is said of the test, with a multiple of the strata's sizes and so many labellings.
fn frame_of(strata: &[Stratum], multiple: u128, total: u128) -> Frame
    requires small { AreSmall strata.now }
    requires few { length strata.now ≤ MOST_ROWS }
    requires most { multiple ≤ MAX }
    requires fits { multiple * sum_by size strata.now ≤ MAX }
    ensures { let centre = pos (centre_by multiple strata.now) in
        let statistic = pos (sum_by (λ s. s.a) strata.now) in
        result ≡ record {
          statistic = statistic;
          scale = 1;
          total = total;
          two = Rule.Far multiple centre (distance multiple centre statistic);
        } }
{
    let statistic = own_sum(strata) as i128;
    let centre = centre_by(multiple, strata) as i128;
    Frame {
        statistic,
        scale: 1,
        total,
        two: Rule::far(multiple, centre, statistic),
    }
}

// Prepares strata without odds, or with given ones.
fn prepared(alloc: Global, odds: Option<Odds>, strata: &Strata) -> Result<StrataTest, PrepareFault>
    requires { AreOdds odds }
    ensures { Prepares strata_test (data_of odds strata.now.cells) result }
{
    let tables = strata_of(alloc, strata.cells.as_slice())?;
    let Some(total) = strata_total(odds, tables.as_slice()) else {
        return Err(PrepareFault::TooWide(WideOf::Total));
    };
    let Some(multiple) = multiple_of(tables.as_slice()) else {
        return Err(PrepareFault::TooWide(WideOf::Statistic));
    };
    let Some(_bound) = bounded_product(multiple, subjects(tables.as_slice()) as u128) else {
        return Err(PrepareFault::TooWide(WideOf::Statistic));
    };
    let frame = frame_of(tables.as_slice(), multiple, total);
    let sizes = sizes(alloc, tables.as_slice())?;
    let cells = strata.cells.copy()?;
    Ok(StrataTest {
        cells,
        odds,
        made: MadeStrata {
            strata: tables,
            sizes,
            frame,
        },
    })
}

/// Prepares the exact test of strata: the sum of the first cells, over all labellings of each
/// stratum's subjects with the sums of its rows.
///
/// # Errors
/// `TooWide(Total)` where there are more labellings than `weights::MAX`. Or else
/// `TooWide(Statistic)` where the number of subjects times the least common multiple of the
/// strata's sizes passes it. Or else `NoMemory` where memory runs out.
pub fn prepare(alloc: Global, strata: &Strata) -> Result<StrataTest, PrepareFault>
    ensures { Prepares strata_test (data_of None strata.now.cells) result }
{
    prepared(alloc, None, strata)
}

/// Prepares the exact test of strata with given odds, the same in each stratum and of two numbers
/// from 1 to 1000: a labelling weighs the product of `odds.above` for each subject of the first
/// rows who is in the first column, and `odds.below` for each other subject of the first rows
/// (Fisher, The Logic of Inductive Inference, Journal of the Royal Statistical Society 98, 1935).
/// It has the tails `less` and `greater` alone.
///
/// # Errors
/// `TooWide(Total)` where the labellings weigh more than `weights::MAX` together. Or else
/// `TooWide(Statistic)` as without odds. Or else `NoMemory` where memory runs out.
pub fn prepare_odds(alloc: Global, odds: Odds, strata: &Strata) -> Result<StrataTest, PrepareFault>
    requires { IsOdds odds }
    ensures { Prepares strata_test (data_of (Some odds) strata.now.cells) result }
{
    prepared(alloc, Some(odds), strata)
}

impl StrataTest {
    /// The odds, where they are given.
    pub(crate) fn odds(&self) -> Option<Odds>
        ensures given { result ≡ self.now.odds }
        ensures odds { AreOdds self.now.odds }
    {
        self.odds
    }

    /// What was made of the strata.
    pub(crate) fn made(&self) -> &MadeStrata
        ensures { AreMade self.now.odds (strata_of self.now.cells) result.now }
    {
        &self.made
    }

    /// The rules of its tails.
    pub(crate) fn judge(&self) -> Judge
        ensures { result ≡ judge_of (strata_test self.now) }
    {
        Judge::of(&self.made().frame)
    }
}
