// The public calls of `two_sample_tests`.
ghost use Rattle.std.specs.Prelude.{◌≡◌, IfOk, length, true, ◌<◌, ◌^◌, ◌≢◌, ◌≤◌, All, AllPairs, nat_abs};
ghost use Rattle.networks.specs.Completions.{extreme_weight, total_weight};
ghost use Rattle.networks.specs.Follows.{answer_of, open_keys};
ghost use Rattle.networks.specs.Lines.{WeightsFit};
ghost use Rattle.sample_reader.specs.Data.{data_of};
ghost use Rattle.sample_reader.specs.Groups.{GroupData};
ghost use Rattle.two_sample_tests.specs.Columns.{two_sample_network};
ghost use Rattle.two_sample_tests.specs.TwoSamples.{two_sample_test};
ghost use Rattle.weights.specs.Conditional.{distribution, numerator, total};
ghost use Rattle.weights.specs.Wide.{Prepares};
ghost use Rattle.weights.specs.Labellings.{counts_of};

use crate::enumerate_calls::plain_tail;
use crate::sample_reader_calls::groups_of;
use sample_reader::{Groups, Labels};
use scores::ScoreKind;
use stage_network::{Answer, PrepareFault, Spread, Stages, Way};
use std::alloc::Global;
use two_sample_tests::{TwoSample, TwoSampleStages};
use weights::{Ints, NoMemory, Nums, Tail, Tails};

/// A test of two samples, or which number is too wide.
pub fn prepare(alloc: Global, kind: ScoreKind, groups: &Groups) -> Result<TwoSample, PrepareFault>
    requires { length groups.now.labels ≡ 2 }
    ensures { Prepares two_sample_test
        (record { kind = kind; groups = data_of groups.now }) result }
{
    two_sample_tests::prepare(alloc, kind, groups)
}

/// The answer of a test for tails that it has, by either way.
pub fn answer(
    alloc: Global,
    problem: &TwoSample,
    tails: Tails,
    way: Way,
) -> Result<Answer, NoMemory>
    requires less { tails.less ≡ true → (two_sample_test problem.now).has_tail Tail.Less ≡ true }
    requires greater { tails.greater ≡ true
        → (two_sample_test problem.now).has_tail Tail.Greater ≡ true }
    requires two { tails.two ≡ true → (two_sample_test problem.now).has_tail Tail.Two ≡ true }
    ensures { let opened = open_keys (two_sample_network problem.now) in
        IfOk result (λ answer.
        answer ≡ answer_of (two_sample_test problem.now) opened tails way) }
{
    two_sample_tests::answer(alloc, problem, tails, way)
}

/// The distribution of a test, by either way.
pub fn distribution(alloc: Global, problem: &TwoSample, way: Way) -> Result<Spread, NoMemory>
    ensures lines { IfOk result (λ spread. spread ≡ distribution (two_sample_test problem.now)) }
    ensures weights { IfOk result WeightsFit }
{
    two_sample_tests::distribution(alloc, problem, way)
}

/// The network that runs for a tail that the test has. All completions of its first key weigh the
/// total, and the extreme ones the tail's numerator.
pub fn stages_of(
    alloc: Global,
    problem: &TwoSample,
    tail: Tail,
) -> Result<TwoSampleStages, NoMemory>
    requires { (two_sample_test problem.now).has_tail tail ≡ true }
    ensures built { let n = two_sample_network problem.now tail in
        IfOk result (λ built. ⟦<TwoSampleStages as Stages>⟧.network built ≡ n) }
    ensures rest { let n = two_sample_network problem.now tail in
        total_weight n 0 n.first ≡ total (two_sample_test problem.now) }
    ensures numerator { let n = two_sample_network problem.now tail in
        extreme_weight n tail 0 n.first ≡ numerator (two_sample_test problem.now) tail }
{
    two_sample_tests::stages_of(alloc, problem, tail)
}

/// The numerator of a tail that the test has, by the slow walk.
pub fn walked_tail(alloc: Global, problem: &TwoSample, tail: Tail) -> Result<u128, NoMemory>
    requires { (two_sample_test problem.now).has_tail tail ≡ true }
    ensures { IfOk result (λ sum. sum ≡ numerator (two_sample_test problem.now) tail) }
{
    plain_tail(alloc, problem, tail)
}

/// A test of two samples of their parts.
pub fn prepared_groups(
    alloc: Global,
    kind: ScoreKind,
    labels: Labels,
    sizes: Nums,
    members: Nums,
    values: Ints,
) -> Result<TwoSample, PrepareFault>
    requires two { length labels ≡ 2 }
    requires distinct { AllPairs ◌≢◌ labels }
    requires few { length values ≤ 10000 }
    requires small { All (λ value. nat_abs value < 10 ^ 36) values }
    requires one_each { length members ≡ length values }
    requires exist { All (λ group. group < length labels) members }
    requires counted { sizes ≡ counts_of (length labels) members }
    requires some { All (λ size. 1 ≤ size) sizes }
    ensures { let groups : GroupData =
        record { labels = labels; members = members; values = values } in
        Prepares two_sample_test (record { kind = kind; groups = groups }) result }
{
    let groups = groups_of(labels, sizes, members, values);
    prepare(alloc, kind, &groups)
}
