// The public calls of `homogeneity`.
ghost use Rattle.std.specs.Prelude.{◌≡◌, IfOk, true, ◌<◌, ◌^◌, ◌≢◌, ◌≤◌, All, AllPairs, length, nat_abs};
ghost use Rattle.homogeneity.specs.Homogeneities.{homogeneity_network, homogeneity_test};
ghost use Rattle.networks.specs.Completions.{extreme_weight, total_weight};
ghost use Rattle.networks.specs.Follows.{answer_of, open_keys};
ghost use Rattle.networks.specs.Lines.{WeightsFit};
ghost use Rattle.sample_reader.specs.Data.{strata_data_of};
ghost use Rattle.sample_reader.specs.StrataGroups.{StrataGroupData};
ghost use Rattle.weights.specs.Conditional.{distribution, numerator, total};
ghost use Rattle.weights.specs.Wide.{Prepares};
ghost use Rattle.networks.specs.declared.one_of.OneOf.TheVariants.{First, Second};
ghost use Rattle.weights.specs.Labellings.{counts_of};

use crate::sample_reader_calls::strata_groups_of;
use homogeneity::{Homogeneity, HomogeneityStages};
use sample_reader::{Labels, StrataGroups};
use stage_network::{Answer, PrepareFault, Spread, Stages, Way};
use std::alloc::Global;
use table_reader::Strata;
use weights::{Ints, NoMemory, Nums, Tail, Tails};

/// The answer of a test for tails that it has, by either way.
pub fn answer(
    alloc: Global,
    problem: &Homogeneity,
    tails: Tails,
    way: Way,
) -> Result<Answer, NoMemory>
    requires less { tails.less ≡ true → (homogeneity_test problem.now).has_tail Tail.Less ≡ true }
    requires greater { tails.greater ≡ true
        → (homogeneity_test problem.now).has_tail Tail.Greater ≡ true }
    requires two { tails.two ≡ true → (homogeneity_test problem.now).has_tail Tail.Two ≡ true }
    ensures { let opened = open_keys (homogeneity_network problem.now) in
        IfOk result (λ answer.
        answer ≡ answer_of (homogeneity_test problem.now) opened tails way) }
{
    homogeneity::answer(alloc, problem, tails, way)
}

/// The distribution of a test, by either way.
pub fn distribution(alloc: Global, problem: &Homogeneity, way: Way) -> Result<Spread, NoMemory>
    ensures lines { IfOk result (λ spread. spread ≡ distribution (homogeneity_test problem.now)) }
    ensures weights { IfOk result WeightsFit }
{
    homogeneity::distribution(alloc, problem, way)
}

/// Zelen's test of strata, or which number is too wide.
pub fn prepare_zelen(alloc: Global, strata: &Strata) -> Result<Homogeneity, PrepareFault>
    ensures { Prepares homogeneity_test (First strata.now.cells) result }
{
    homogeneity::prepare_zelen(alloc, strata)
}

/// The rank sum test in strata, or which number is too wide.
pub fn prepare_ranks(alloc: Global, samples: &StrataGroups) -> Result<Homogeneity, PrepareFault>
    ensures { Prepares homogeneity_test (Second (strata_data_of samples.now)) result }
{
    homogeneity::prepare_ranks(alloc, samples)
}

/// The network that runs for a tail that the test has. All completions of its first key weigh the
/// total, and the extreme ones the tail's numerator.
pub fn stages_of(
    alloc: Global,
    problem: &Homogeneity,
    tail: Tail,
) -> Result<HomogeneityStages, NoMemory>
    requires { (homogeneity_test problem.now).has_tail tail ≡ true }
    ensures built { let n = homogeneity_network problem.now tail in
        IfOk result (λ built. ⟦<HomogeneityStages as Stages>⟧.network built ≡ n) }
    ensures rest { let n = homogeneity_network problem.now tail in
        total_weight n 0 n.first ≡ total (homogeneity_test problem.now) }
    ensures numerator { let n = homogeneity_network problem.now tail in
        extreme_weight n tail 0 n.first ≡ numerator (homogeneity_test problem.now) tail }
{
    homogeneity::stages_of(alloc, problem, tail)
}

/// The rank sum test in strata of the parts of its samples.
pub fn prepared_strata_groups(
    alloc: Global,
    strata: Labels,
    labels: Labels,
    sizes: Nums,
    places: Nums,
    members: Nums,
    values: Ints,
) -> Result<Homogeneity, PrepareFault>
    requires two { length labels ≡ 2 }
    requires distinct { AllPairs ◌≢◌ labels }
    requires strata_distinct { AllPairs ◌≢◌ strata }
    requires few { length values ≤ 10000 }
    requires small { All (λ value. nat_abs value < 10 ^ 36) values }
    requires one_each { length members ≡ length values }
    requires exist { All (λ group. group < length labels) members }
    requires counted { sizes ≡ counts_of (length labels) members }
    requires some { All (λ size. 1 ≤ size) sizes }
    requires places_each { length places ≡ length values }
    requires strata_exist { All (λ stratum. stratum < length strata) places }
    requires strata_some { All (λ size. 1 ≤ size) (counts_of (length strata) places) }
    ensures { let samples : StrataGroupData = record {
      strata = strata;
      labels = labels;
      places = places;
      members = members;
      values = values;
    } in Prepares homogeneity_test (Second samples) result }
{
    let samples = strata_groups_of(strata, labels, sizes, places, members, values);
    prepare_ranks(alloc, &samples)
}
