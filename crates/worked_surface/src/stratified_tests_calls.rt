// The public calls of `stratified_tests`.
ghost use Rattle.std.specs.Prelude.{◌≡◌, IfOk, true, ◌%◌, ◌≤◌, All, length};
ghost use Rattle.networks.specs.Completions.{extreme_weight, total_weight};
ghost use Rattle.networks.specs.Follows.{answer_of, open_keys};
ghost use Rattle.networks.specs.Lines.{WeightsFit};
ghost use Rattle.stratified_tests.specs.StrataNetwork.{strata_network};
ghost use Rattle.stratified_tests.specs.StrataTests.{data_of, strata_test};
ghost use Rattle.weights.specs.Conditional.{distribution, numerator, total};
ghost use Rattle.weights.specs.Odds.{IsOdds};
ghost use Rattle.weights.specs.Wide.{Prepares};

use crate::table_reader_calls::strata_of;
use stage_network::{Answer, PrepareFault, Spread, Stages, Way};
use std::alloc::Global;
use stratified_tests::{StrataStages, StrataTest};
use table_reader::Strata;
use weights::{NoMemory, Nums, Odds, Tail, Tails};

/// A test of strata, or which number is too wide.
pub fn prepare(alloc: Global, strata: &Strata) -> Result<StrataTest, PrepareFault>
    ensures { Prepares strata_test (data_of None strata.now.cells) result }
{
    stratified_tests::prepare(alloc, strata)
}

/// A test of strata with odds, or which number is too wide.
pub fn prepare_odds(alloc: Global, odds: Odds, strata: &Strata) -> Result<StrataTest, PrepareFault>
    requires { IsOdds odds }
    ensures { Prepares strata_test (data_of (Some odds) strata.now.cells) result }
{
    stratified_tests::prepare_odds(alloc, odds, strata)
}

/// The answer of a test for tails that it has, by either way.
pub fn answer(
    alloc: Global,
    problem: &StrataTest,
    tails: Tails,
    way: Way,
) -> Result<Answer, NoMemory>
    requires less { tails.less ≡ true → (strata_test problem.now).has_tail Tail.Less ≡ true }
    requires greater { tails.greater ≡ true
        → (strata_test problem.now).has_tail Tail.Greater ≡ true }
    requires two { tails.two ≡ true → (strata_test problem.now).has_tail Tail.Two ≡ true }
    ensures { let opened = open_keys (strata_network problem.now) in
        IfOk result (λ answer.
        answer ≡ answer_of (strata_test problem.now) opened tails way) }
{
    stratified_tests::answer(alloc, problem, tails, way)
}

/// The distribution of a test, by either way.
pub fn distribution(alloc: Global, problem: &StrataTest, way: Way) -> Result<Spread, NoMemory>
    ensures lines { IfOk result (λ spread. spread ≡ distribution (strata_test problem.now)) }
    ensures weights { IfOk result WeightsFit }
{
    stratified_tests::distribution(alloc, problem, way)
}

/// The network that runs for a tail that the test has. All completions of its first key weigh the
/// total, and the extreme ones the tail's numerator.
pub fn stages_of(alloc: Global, problem: &StrataTest, tail: Tail) -> Result<StrataStages, NoMemory>
    requires { (strata_test problem.now).has_tail tail ≡ true }
    ensures built { let n = strata_network problem.now tail in
        IfOk result (λ built. ⟦<StrataStages as Stages>⟧.network built ≡ n) }
    ensures rest { let n = strata_network problem.now tail in
        total_weight n 0 n.first ≡ total (strata_test problem.now) }
    ensures numerator { let n = strata_network problem.now tail in
        extreme_weight n tail 0 n.first ≡ numerator (strata_test problem.now) tail }
{
    stratified_tests::stages_of(alloc, problem, tail)
}

/// A test of strata of their cells.
pub fn prepared_strata(alloc: Global, cells: Nums) -> Result<StrataTest, PrepareFault>
    requires some { 4 ≤ length cells }
    requires few { length cells ≤ 40000 }
    requires four_each { length cells % 4 ≡ 0 }
    requires counts { All (λ cell. cell ≤ 1000000) cells }
    ensures { Prepares strata_test (data_of None cells) result }
{
    let strata = strata_of(cells);
    prepare(alloc, &strata)
}
