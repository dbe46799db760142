// The public calls of `one_sample_tests`.
ghost use Rattle.std.specs.Prelude.{◌<◌, ◌≡◌, IfOk, true, ◌*◌, ◌^◌, ◌≤◌, All, length, nat_abs};
ghost use Rattle.networks.specs.Completions.{extreme_weight, total_weight};
ghost use Rattle.networks.specs.Follows.{answer_of, open_keys};
ghost use Rattle.networks.specs.Lines.{WeightsFit};
ghost use Rattle.one_sample_tests.specs.SignNetwork.{one_sample_network};
ghost use Rattle.one_sample_tests.specs.SignedSamples.{discordant, one_sample_test, sample_of};
ghost use Rattle.table_reader.specs.Data.{table_data_of};
ghost use Rattle.weights.specs.Conditional.{distribution, numerator, total};
ghost use Rattle.weights.specs.Wide.{Prepares};

use crate::sample_reader_calls::pairs_of;
use one_sample_tests::{OneSample, OneSampleStages, SignKind};
use sample_reader::Pairs;
use stage_network::{Answer, PrepareFault, Spread, Stages, Way};
use std::alloc::Global;
use table_reader::Table;
use weights::{Ints, NoMemory, Tail, Tails};

/// A test of pairs, or which number is too wide.
pub fn prepare_pairs(
    alloc: Global,
    kind: SignKind,
    pairs: &Pairs,
) -> Result<OneSample, PrepareFault>
    ensures { Prepares one_sample_test (sample_of kind pairs.now.differences) result }
{
    one_sample_tests::prepare_pairs(alloc, kind, pairs)
}

/// McNemar's test, or which number is too wide.
pub fn prepare_mcnemar(alloc: Global, table: &Table) -> Result<OneSample, PrepareFault>
    requires rows { table.now.rows ≡ 2 }
    requires columns { table.now.columns ≡ 2 }
    ensures { Prepares one_sample_test (discordant (table_data_of table.now)) result }
{
    one_sample_tests::prepare_mcnemar(alloc, table)
}

/// The answer of a test for tails that it has, by either way.
pub fn answer(
    alloc: Global,
    problem: &OneSample,
    tails: Tails,
    way: Way,
) -> Result<Answer, NoMemory>
    requires less { tails.less ≡ true → (one_sample_test problem.now).has_tail Tail.Less ≡ true }
    requires greater { tails.greater ≡ true
        → (one_sample_test problem.now).has_tail Tail.Greater ≡ true }
    requires two { tails.two ≡ true → (one_sample_test problem.now).has_tail Tail.Two ≡ true }
    ensures { let opened = open_keys (one_sample_network problem.now) in
        IfOk result (λ answer.
        answer ≡ answer_of (one_sample_test problem.now) opened tails way) }
{
    one_sample_tests::answer(alloc, problem, tails, way)
}

/// The distribution of a test, by either way.
pub fn distribution(alloc: Global, problem: &OneSample, way: Way) -> Result<Spread, NoMemory>
    ensures lines { IfOk result (λ spread. spread ≡ distribution (one_sample_test problem.now)) }
    ensures weights { IfOk result WeightsFit }
{
    one_sample_tests::distribution(alloc, problem, way)
}

/// The place of a kind of signs. There are three, and no other.
pub fn sign_place(kind: SignKind) -> u64
    ensures { result < 3 }
{
    match kind {
        SignKind::SignedRank => 0,
        SignKind::Sign => 1,
        SignKind::RawSigned => 2,
    }
}

/// The network that runs for a tail that the test has. All completions of its first key weigh the
/// total, and the extreme ones the tail's numerator.
pub fn stages_of(
    alloc: Global,
    problem: &OneSample,
    tail: Tail,
) -> Result<OneSampleStages, NoMemory>
    requires { (one_sample_test problem.now).has_tail tail ≡ true }
    ensures built { let n = one_sample_network problem.now tail in
        IfOk result (λ built. ⟦<OneSampleStages as Stages>⟧.network built ≡ n) }
    ensures rest { let n = one_sample_network problem.now tail in
        total_weight n 0 n.first ≡ total (one_sample_test problem.now) }
    ensures numerator { let n = one_sample_network problem.now tail in
        extreme_weight n tail 0 n.first ≡ numerator (one_sample_test problem.now) tail }
{
    one_sample_tests::stages_of(alloc, problem, tail)
}

/// A test of pairs of their parts.
pub fn prepared_pairs(
    alloc: Global,
    kind: SignKind,
    rows: u64,
    differences: Ints,
) -> Result<OneSample, PrepareFault>
    requires some { 1 ≤ rows }
    requires few { rows ≤ 10000 }
    requires one_each { length differences ≡ rows }
    requires small { All (λ difference. nat_abs difference < 2 * 10 ^ 36) differences }
    ensures { Prepares one_sample_test (sample_of kind differences) result }
{
    let pairs = pairs_of(rows, differences);
    prepare_pairs(alloc, kind, &pairs)
}
