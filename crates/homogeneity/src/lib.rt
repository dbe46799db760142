//! Tests over strata: `zelen`, whether the odds ratio is the same in all, and `stratranksum`, of
//! two samples by ranks within strata.
#![tactic(auto)]

ghost use Rattle.std.specs.Prelude.{◌≡◌, ◌≤◌, true, IfOk};
ghost use Rattle.weights.specs.Conditional.{distribution, numerator, total};
ghost use Rattle.networks.specs.Completions.{extreme_weight, total_weight};
ghost use Rattle.networks.specs.Follows.{AllFollow, HasTails, answer_of, open_keys};
ghost use Rattle.networks.specs.Lines.{TailsFit, WeightsFit};
ghost use Rattle.homogeneity.specs.Homogeneities.{homogeneity_network, homogeneity_test};

mod homogeneity_test;

pub use homogeneity_test::{Homogeneity, prepare_ranks, prepare_zelen};
use networks::{Answer, OneOf, Spread, Stages, Way};
use std::alloc::Global;
pub use stratified_ranks::{RankMeasure, RankRooms, RankStages, StrataRankSum, StratifiedRanks};
use weights::{NoMemory, Tail, Tails};
pub use zelen_test::{Zelen, ZelenMeasure, ZelenRooms, ZelenStages};

/// The network of a test over strata.
pub type HomogeneityStages = OneOf<ZelenStages, RankStages>;

/// The answer of a test over strata for tails that it has, by either way: the observed statistic,
/// its scale, the number of labellings, and of each asked tail how many labellings are at least as
/// extreme.
pub fn answer(
    alloc: Global,
    problem: &Homogeneity,
    tails: Tails,
    way: Way,
) -> Result<Answer, NoMemory>
    requires { HasTails (homogeneity_test problem.now) tails }
    ensures answer { let opened = open_keys (homogeneity_network problem.now) in
        IfOk result (λ answer. answer ≡ answer_of (homogeneity_test problem.now) opened tails way) }
    ensures some { IfOk result (λ answer. 1 ≤ answer.total) }
{
    stage_network::answer(alloc, problem, tails, way)
}

/// The distribution of the statistic of a test over strata: each value that it takes, ascending,
/// with the number of labellings that have it, by either way.
pub fn distribution(alloc: Global, problem: &Homogeneity, way: Way) -> Result<Spread, NoMemory>
    ensures lines { IfOk result (λ spread. spread ≡ distribution (homogeneity_test problem.now)) }
    ensures weights { IfOk result WeightsFit }
    ensures rules { IfOk result (TailsFit (homogeneity_test problem.now)) }
{
    stage_network::distribution(alloc, problem, way)
}

/// The network of a tail that the test has, as it runs, for whoever wants to sweep, cut or count
/// it. The completions of its first key weigh as much as there are labellings, and those that are
/// extreme as much as the tail's numerator.
pub fn stages_of(
    alloc: Global,
    problem: &Homogeneity,
    tail: Tail,
) -> Result<HomogeneityStages, NoMemory>
    requires { (homogeneity_test problem.now).has_tail tail ≡ true }
    ensures built { let n = homogeneity_network problem.now tail in
        IfOk result (λ built. ⟦<HomogeneityStages as Stages>⟧.network built ≡ n) }
    ensures follows { AllFollow (homogeneity_test problem.now) (homogeneity_network problem.now) }
    ensures whole { let n = homogeneity_network problem.now tail in
        total_weight n 0 n.first ≡ total (homogeneity_test problem.now) }
    ensures numerator { let n = homogeneity_network problem.now tail in
        extreme_weight n tail 0 n.first ≡ numerator (homogeneity_test problem.now) tail }
{
    stage_network::network_of(alloc, problem, tail)
}
