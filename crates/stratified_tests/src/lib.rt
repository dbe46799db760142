//! The exact test of strata, each a table of two rows and two columns: `strata`, without odds or
//! with given odds.
#![tactic(auto)]

ghost use Rattle.std.specs.Prelude.{◌≡◌, ◌≤◌, IfOk, true};
ghost use Rattle.weights.specs.Conditional.{distribution, numerator, total};
ghost use Rattle.networks.specs.Completions.{extreme_weight, total_weight};
ghost use Rattle.networks.specs.Follows.{AllFollow, HasTails, answer_of, open_keys};
ghost use Rattle.networks.specs.Lines.{TailsFit, WeightsFit};
ghost use Rattle.stratified_tests.specs.StrataTests.{strata_test};
ghost use Rattle.stratified_tests.specs.StrataNetwork.{strata_network};

mod first_cell_stages;
mod odds;
mod strata_test;
mod sums;
mod totals;
mod ways;

pub use first_cell_stages::FirstCellStages;
use networks::{AdditiveStages, Answer, Spread, Stages, Way};
use std::alloc::Global;
pub use strata_test::{StrataTest, prepare, prepare_odds};
use weights::{NoMemory, Tail, Tails};

/// The answer of a test of strata for tails that it has, by either way: the observed sum of the
/// first cells, its scale, what the labellings weigh, and of each asked tail what those weigh whose
/// sum is at least as extreme. Without odds it has all tails, and a labelling weighs 1.
pub fn answer(
    alloc: Global,
    problem: &StrataTest,
    tails: Tails,
    way: Way,
) -> Result<Answer, NoMemory>
    requires { HasTails (strata_test problem.now) tails }
    ensures answer { let opened = open_keys (strata_network problem.now) in
        IfOk result (λ answer.
        answer ≡ answer_of (strata_test problem.now) opened tails way) }
    ensures some { IfOk result (λ answer. 1 ≤ answer.total) }
{
    stage_network::answer(alloc, problem, tails, way)
}

/// The distribution of the sum of the first cells: each value that it takes, ascending, with what
/// the labellings weigh that have it, by either way.
pub fn distribution(alloc: Global, problem: &StrataTest, way: Way) -> Result<Spread, NoMemory>
    ensures lines { IfOk result (λ spread. spread ≡ distribution (strata_test problem.now)) }
    ensures weights { IfOk result WeightsFit }
    ensures rules { IfOk result (TailsFit (strata_test problem.now)) }
{
    stage_network::distribution(alloc, problem, way)
}

/// The network of a test of strata.
pub type StrataStages = AdditiveStages<FirstCellStages>;

/// The network of a tail that the test has, as it runs, for whoever wants to sweep, cut or count
/// it. The completions of its first key weigh as much as the labellings, and those that are extreme
/// as much as the tail's numerator.
pub fn stages_of(alloc: Global, problem: &StrataTest, tail: Tail) -> Result<StrataStages, NoMemory>
    requires { (strata_test problem.now).has_tail tail ≡ true }
    ensures built { let n = strata_network problem.now tail in
        IfOk result (λ built. ⟦<StrataStages as Stages>⟧.network built ≡ n) }
    ensures follows { AllFollow (strata_test problem.now) (strata_network problem.now) }
    ensures whole { let n = strata_network problem.now tail in
        total_weight n 0 n.first ≡ total (strata_test problem.now) }
    ensures numerator { let n = strata_network problem.now tail in
        extreme_weight n tail 0 n.first ≡ numerator (strata_test problem.now) tail }
{
    stage_network::network_of(alloc, problem, tail)
}
