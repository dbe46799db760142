//! Tests of one sample by the signs of its differences: `signedrank`, `sign` and `rawsigned` of
//! pairs, and `mcnemar` of the discordant pairs of a table.
#![tactic(auto)]

ghost use Rattle.std.specs.Prelude.{◌≡◌, ◌≤◌, IfOk, true};
ghost use Rattle.weights.specs.Conditional.{distribution, numerator, total};
ghost use Rattle.networks.specs.Completions.{extreme_weight, total_weight};
ghost use Rattle.networks.specs.Follows.{AllFollow, answer_of, open_keys};
ghost use Rattle.networks.specs.Lines.{TailsFit, WeightsFit};
ghost use Rattle.one_sample_tests.specs.SignedSamples.{one_sample_test};
ghost use Rattle.one_sample_tests.specs.SignNetwork.{one_sample_network};

mod kinds;
mod mark_stages;
mod mark_sum;
mod marks;
mod one_sample;
mod scored_marks;

pub use kinds::SignKind;
pub use mark_stages::MarkStages;
pub use mark_sum::MarkSum;
use networks::{AdditiveStages, Answer, Spread, Stages, Way};
pub use one_sample::{OneSample, prepare_mcnemar, prepare_pairs, used_pairs};
use std::alloc::Global;
use weights::{NoMemory, Tail, Tails};

/// The answer of a test of one sample for any of the three tails, by either way: the observed sum
/// of the scores of the plus marks, its scale, the number of lists of marks, and of each asked tail
/// how many lists have a sum that is at least as extreme.
pub fn answer(
    alloc: Global,
    problem: &OneSample,
    tails: Tails,
    way: Way,
) -> Result<Answer, NoMemory>
    ensures answer { let opened = open_keys (one_sample_network problem.now) in
        IfOk result (λ answer.
        answer ≡ answer_of (one_sample_test problem.now) opened tails way) }
    ensures some { IfOk result (λ answer. 1 ≤ answer.total) }
{
    stage_network::answer(alloc, problem, tails, way)
}

/// The distribution of the sum of the scores of the plus marks: each value that it takes,
/// ascending, with the number of lists of marks that have it, by either way.
pub fn distribution(alloc: Global, problem: &OneSample, way: Way) -> Result<Spread, NoMemory>
    ensures lines { IfOk result (λ spread. spread ≡ distribution (one_sample_test problem.now)) }
    ensures weights { IfOk result WeightsFit }
    ensures rules { IfOk result (TailsFit (one_sample_test problem.now)) }
{
    stage_network::distribution(alloc, problem, way)
}

/// The network of a test of one sample.
pub type OneSampleStages = AdditiveStages<MarkStages>;

/// The network of a tail that the test has, as it runs, for whoever wants to sweep, cut or count
/// it. The completions of its first key weigh as much as there are lists of marks, and those that
/// are extreme as much as the tail's numerator.
pub fn stages_of(
    alloc: Global,
    problem: &OneSample,
    tail: Tail,
) -> Result<OneSampleStages, NoMemory>
    requires { (one_sample_test problem.now).has_tail tail ≡ true }
    ensures built { let n = one_sample_network problem.now tail in
        IfOk result (λ built. ⟦<OneSampleStages as Stages>⟧.network built ≡ n) }
    ensures follows { AllFollow (one_sample_test problem.now) (one_sample_network problem.now) }
    ensures whole { let n = one_sample_network problem.now tail in
        total_weight n 0 n.first ≡ total (one_sample_test problem.now) }
    ensures numerator { let n = one_sample_network problem.now tail in
        extreme_weight n tail 0 n.first ≡ numerator (one_sample_test problem.now) tail }
{
    stage_network::network_of(alloc, problem, tail)
}
