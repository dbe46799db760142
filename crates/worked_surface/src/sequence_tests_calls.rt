// The public calls of `sequence_tests`.
ghost use Rattle.std.specs.Prelude.{◌≡◌, IfOk, true, ◌<◌, ◌^◌, ◌≢◌, ◌≤◌, All, AllPairs, length, nat_abs};
ghost use Rattle.networks.specs.Completions.{extreme_weight, total_weight};
ghost use Rattle.networks.specs.Follows.{answer_of, open_keys};
ghost use Rattle.networks.specs.Lines.{WeightsFit};
ghost use Rattle.sample_reader.specs.Data.{sequence_data_of, twin_data_of};
ghost use Rattle.sample_reader.specs.Sequences.{SequenceData};
ghost use Rattle.sample_reader.specs.Twins.{TwinData};
ghost use Rattle.sequence_tests.specs.SequenceTests.{running_network, sequence_network, sequence_test};
ghost use Rattle.weights.specs.Conditional.{distribution, numerator, total};
ghost use Rattle.weights.specs.Wide.{Prepares};
ghost use Rattle.networks.specs.declared.one_of.OneOf.TheVariants.{First, Second};
ghost use Rattle.weights.specs.Labellings.{counts_of};

use crate::sample_reader_calls::{sequence_of, twins_of};
use sample_reader::{Labels, Sequence, Twins};
use sequence_tests::{SequenceStages, SequenceTest};
use stage_network::{Answer, PrepareFault, Spread, Stages, Way};
use std::alloc::Global;
use weights::{Ints, NoMemory, Nums, Tail, Tails};

/// The answer of a test for tails that it has, by either way.
pub fn answer(
    alloc: Global,
    problem: &SequenceTest,
    tails: Tails,
    way: Way,
) -> Result<Answer, NoMemory>
    requires less { tails.less ≡ true → (sequence_test problem.now).has_tail Tail.Less ≡ true }
    requires greater { tails.greater ≡ true
        → (sequence_test problem.now).has_tail Tail.Greater ≡ true }
    requires two { tails.two ≡ true → (sequence_test problem.now).has_tail Tail.Two ≡ true }
    ensures { let opened = open_keys (sequence_network problem.now) in
        IfOk result (λ answer.
        answer ≡ answer_of (sequence_test problem.now) opened tails way) }
{
    sequence_tests::answer(alloc, problem, tails, way)
}

/// The distribution of a test, by either way.
pub fn distribution(alloc: Global, problem: &SequenceTest, way: Way) -> Result<Spread, NoMemory>
    ensures lines { IfOk result (λ spread. spread ≡ distribution (sequence_test problem.now)) }
    ensures weights { IfOk result WeightsFit }
{
    sequence_tests::distribution(alloc, problem, way)
}

/// Kendall's test, or which number is too wide.
pub fn prepare_kendall(alloc: Global, twins: &Twins) -> Result<SequenceTest, PrepareFault>
    ensures { Prepares sequence_test (First (twin_data_of twins.now)) result }
{
    sequence_tests::prepare_kendall(alloc, twins)
}

/// The runs test, or which number is too wide.
pub fn prepare_runs(alloc: Global, sequence: &Sequence) -> Result<SequenceTest, PrepareFault>
    ensures { Prepares sequence_test (Second (sequence_data_of sequence.now)) result }
{
    sequence_tests::prepare_runs(alloc, sequence)
}

/// The network that runs for a tail that the test has. All completions of its first key weigh the
/// total, and the extreme ones the tail's numerator.
pub fn stages_of(
    alloc: Global,
    problem: &SequenceTest,
    tail: Tail,
) -> Result<SequenceStages, NoMemory>
    requires { (sequence_test problem.now).has_tail tail ≡ true }
    ensures built { let n = running_network problem.now tail in
        IfOk result (λ built. ⟦<SequenceStages as Stages>⟧.network built ≡ n) }
    ensures rest { let n = running_network problem.now tail in
        total_weight n 0 n.first ≡ total (sequence_test problem.now) }
    ensures numerator { let n = running_network problem.now tail in
        extreme_weight n tail 0 n.first ≡ numerator (sequence_test problem.now) tail }
{
    sequence_tests::stages_of(alloc, problem, tail)
}

/// Kendall's test of the parts of a bivariate sample.
pub fn prepared_twins(
    alloc: Global,
    rows: u64,
    first: Ints,
    second: Ints,
) -> Result<SequenceTest, PrepareFault>
    requires some { 1 ≤ rows }
    requires few { rows ≤ 120 }
    requires first { length first ≡ rows }
    requires second { length second ≡ rows }
    requires first_small { All (λ value. nat_abs value < 10 ^ 36) first }
    requires second_small { All (λ value. nat_abs value < 10 ^ 36) second }
    ensures { let twins : TwinData = record { first = first; second = second } in
        Prepares sequence_test (First twins) result }
{
    let twins = twins_of(rows, first, second);
    prepare_kendall(alloc, &twins)
}

/// The runs test of the parts of a sequence.
pub fn prepared_sequence(
    alloc: Global,
    labels: Labels,
    sizes: Nums,
    members: Nums,
) -> Result<SequenceTest, PrepareFault>
    requires two { length labels ≡ 2 }
    requires distinct { AllPairs ◌≢◌ labels }
    requires few { length members ≤ 10000 }
    requires exist { All (λ label. label < length labels) members }
    requires counted { sizes ≡ counts_of (length labels) members }
    requires some { All (λ size. 1 ≤ size) sizes }
    ensures { let sequence : SequenceData = record { labels = labels; members = members } in
        Prepares sequence_test (Second sequence) result }
{
    let sequence = sequence_of(labels, sizes, members);
    prepare_runs(alloc, &sequence)
}
