// The public calls of `k_sample_tests`.
ghost use Rattle.std.specs.Prelude.{◌≡◌, ◌≤◌, IfOk, length, true};
ghost use Rattle.k_sample_tests.specs.KSamples.{k_sample_network, k_sample_test};
ghost use Rattle.networks.specs.Completions.{extreme_weight, total_weight};
ghost use Rattle.networks.specs.Follows.{answer_of, open_keys};
ghost use Rattle.networks.specs.Lines.{WeightsFit};
ghost use Rattle.sample_reader.specs.Data.{data_of};
ghost use Rattle.weights.specs.Conditional.{distribution, numerator, total};
ghost use Rattle.weights.specs.Wide.{Prepares};
ghost use Rattle.networks.specs.declared.one_of.OneOf.TheVariants.{First, Second};

use k_sample_tests::{KSample, KSampleStages};
use sample_reader::Groups;
use scores::ScoreKind;
use stage_network::{Answer, PrepareFault, Spread, Stages, Way};
use std::alloc::Global;
use weights::{NoMemory, Tail, Tails};

/// A test of Kruskal and Wallis, or which number is too wide.
pub fn prepare_kw(alloc: Global, kind: ScoreKind, groups: &Groups) -> Result<KSample, PrepareFault>
    ensures { Prepares k_sample_test (First
        (record { kind = kind; groups = data_of groups.now })) result }
{
    k_sample_tests::prepare_kw(alloc, kind, groups)
}

/// An umbrella test, or which number is too wide.
pub fn prepare_umbrella(alloc: Global, peak: u64, groups: &Groups) -> Result<KSample, PrepareFault>
    requires some { 1 ≤ peak }
    requires most { peak ≤ length groups.now.labels }
    ensures { Prepares k_sample_test (Second
        (record { peak = peak; groups = data_of groups.now })) result }
{
    k_sample_tests::prepare_umbrella(alloc, peak, groups)
}

/// The answer of a test for tails that it has, by either way.
pub fn answer(alloc: Global, problem: &KSample, tails: Tails, way: Way) -> Result<Answer, NoMemory>
    requires less { tails.less ≡ true → (k_sample_test problem.now).has_tail Tail.Less ≡ true }
    requires greater { tails.greater ≡ true
        → (k_sample_test problem.now).has_tail Tail.Greater ≡ true }
    requires two { tails.two ≡ true → (k_sample_test problem.now).has_tail Tail.Two ≡ true }
    ensures { let opened = open_keys (k_sample_network problem.now) in
        IfOk result (λ answer.
        answer ≡ answer_of (k_sample_test problem.now) opened tails way) }
{
    k_sample_tests::answer(alloc, problem, tails, way)
}

/// The distribution of a test, by either way.
pub fn distribution(alloc: Global, problem: &KSample, way: Way) -> Result<Spread, NoMemory>
    ensures lines { IfOk result (λ spread. spread ≡ distribution (k_sample_test problem.now)) }
    ensures weights { IfOk result WeightsFit }
{
    k_sample_tests::distribution(alloc, problem, way)
}

/// The network that runs for a tail that the test has. All completions of its first key weigh the
/// total, and the extreme ones the tail's numerator.
pub fn stages_of(alloc: Global, problem: &KSample, tail: Tail) -> Result<KSampleStages, NoMemory>
    requires { (k_sample_test problem.now).has_tail tail ≡ true }
    ensures built { let n = k_sample_network problem.now tail in
        IfOk result (λ built. ⟦<KSampleStages as Stages>⟧.network built ≡ n) }
    ensures rest { let n = k_sample_network problem.now tail in
        total_weight n 0 n.first ≡ total (k_sample_test problem.now) }
    ensures numerator { let n = k_sample_network problem.now tail in
        extreme_weight n tail 0 n.first ≡ numerator (k_sample_test problem.now) tail }
{
    k_sample_tests::stages_of(alloc, problem, tail)
}
