//! Tests of a table of counts, given the sums of its rows and of its columns: `fisher`, which
//! measures how probable the table is, and the first cell of a table of 2 by 2, also with odds; and
//! `linear`, which measures how scores of the rows go with scores of the columns.
#![tactic(auto)]

ghost use Rattle.std.specs.Prelude.{◌≡◌, ◌≤◌, IfOk, true};
ghost use Rattle.weights.specs.Conditional.{distribution, numerator, total};
ghost use Rattle.networks.specs.Completions.{extreme_weight, total_weight};
ghost use Rattle.networks.specs.Follows.{AllFollow, HasTails, answer_of, open_keys};
ghost use Rattle.networks.specs.Lines.{TailsFit, WeightsFit};
ghost use Rattle.table_tests.specs.TableTests.{table_network, table_test};

mod table_test;

pub use fisher_test::{
    FisherStages, FisherTable, SortedStages, SortedWeights, WeightMeasure, WeightStages,
    fisher_tails, is_two_by_two, transposed_tests,
};
use label_network::LinearStages;
pub use linear_by_linear::{LinearTable, ProductSum};
use networks::{Answer, OneOf, Spread, Stages, Way};
use std::alloc::Global;
pub use table_sums::MOST_SCORE;
pub use table_test::{TableTest, prepare_fisher, prepare_linear, prepare_odds};
pub use two_by_two::{OddsRooms, OddsStages, OddsTable};
use weights::{NoMemory, Tail, Tails};

/// The answer of a test of a table for tails that it has, by either way: the observed statistic,
/// its scale, the number of labellings, and of each asked tail how many labellings are at least as
/// extreme; with odds, their weights instead of their numbers. All tests have all tails, but
/// `fisher` of a table that is not 2 by 2 has the tail on both sides alone, and with odds those of
/// one side alone.
pub fn answer(
    alloc: Global,
    problem: &TableTest,
    tails: Tails,
    way: Way,
) -> Result<Answer, NoMemory>
    requires { HasTails (table_test problem.now) tails }
    ensures answer { let opened = open_keys (table_network problem.now) in
        IfOk result (λ answer. answer ≡ answer_of (table_test problem.now) opened tails way) }
    ensures some { IfOk result (λ answer. 1 ≤ answer.total) }
{
    stage_network::answer(alloc, problem, tails, way)
}

/// The distribution of the statistic of a test of a table: each value that it takes, ascending,
/// with the number of labellings that have it, or with odds their weight, by either way.
pub fn distribution(alloc: Global, problem: &TableTest, way: Way) -> Result<Spread, NoMemory>
    ensures lines { IfOk result (λ spread. spread ≡ distribution (table_test problem.now)) }
    ensures weights { IfOk result WeightsFit }
    ensures rules { IfOk result (TailsFit (table_test problem.now)) }
{
    stage_network::distribution(alloc, problem, way)
}

/// The network of a test of a table.
pub type TableStages = OneOf<OneOf<FisherStages, LinearStages>, OddsStages>;

/// The network of a tail that the test has, as it runs, for whoever wants to sweep, cut or count
/// it. The completions of its first key weigh as much as the labellings, and those that are extreme
/// as much as the tail's numerator.
pub fn stages_of(alloc: Global, problem: &TableTest, tail: Tail) -> Result<TableStages, NoMemory>
    requires { (table_test problem.now).has_tail tail ≡ true }
    ensures built { let n = table_network problem.now tail in
        IfOk result (λ built. ⟦<TableStages as Stages>⟧.network built ≡ n) }
    ensures follows { AllFollow (table_test problem.now) (table_network problem.now) }
    ensures whole { let n = table_network problem.now tail in
        total_weight n 0 n.first ≡ total (table_test problem.now) }
    ensures numerator { let n = table_network problem.now tail in
        extreme_weight n tail 0 n.first ≡ numerator (table_test problem.now) tail }
{
    stage_network::network_of(alloc, problem, tail)
}
