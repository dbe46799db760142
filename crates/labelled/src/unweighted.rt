// What a test offers whose rearrangements all weigh 1.
ghost use Rattle.std.specs.Prelude.{◌≡◌, Contains, IfOk};
ghost use Rattle.weights.specs.Conditional.{ConditionalTest};
ghost use Rattle.weights.specs.declared.tails.Tail.{Tail};
ghost use Rattle.node_pool.specs.Nodes.{weighted};
ghost use Rattle.node_pool.specs.PoolSteps.{nodes_of};
ghost use Rattle.networks.specs.Completions.{extreme_weight};
ghost use Rattle.enumerate.specs.Walk.{BeginsWith, StepsThrough};
ghost use Rattle.networks.specs.Judged.{judge_of};
ghost use Rattle.networks.specs.Network.{Network};
ghost use Rattle.networks.specs.Follows.{AreNumerators, Follows, HasTails};
ghost use Rattle.stage_network.specs.FromKeys.{AreStarts};
ghost use Rattle.labelled.specs.UnweightedTests.{CanBeAnswered};

use networks::{Judge, Roomed, TailSums};
use stage_network::{sum_from_keys, tail_sums_by_rooms};
use std::alloc::Global;
use weights::{Bytes, NoMemory, Tail, Tails};

/// A test whose data are checked, whose rearrangements all weigh 1, and whose tails all go by its
/// statistic: the walk through the rearrangements, the statistic, and the network that ends at it.
/// With [`Unweighted`](crate::Unweighted) the test is prepared for both ways.
pub trait UnweightedTest {
    /// Its networks.
    type Built: Roomed + Drop;

    /// What the test is.
    ghost test: { Self → ConditionalTest };

    /// The network that ends at the statistic, for all tails, as it is written down: the open keys
    /// that are counted are its.
    ghost network: { Self → Network };

    /// The network that runs: the written one, or one whose keys stand for those of that network.
    ghost running: { Self → Network };

    /// What is known of it: no number of the test passes a limit, and the network follows it. It
    /// does nothing.
    fn sound(&self)
        ensures { CanBeAnswered (test self.now) (running self.now) (network self.now) };

    /// The first rearrangement.
    fn first(&self, alloc: Global) -> Result<Bytes, NoMemory>
        ensures { IfOk result (BeginsWith (test self.now).reference) };

    /// Moves from a rearrangement to the next one. False comes exactly at the last one, which
    /// stays. It takes no memory.
    fn next(&self, labels: &mut Bytes) -> bool
        requires { Contains (test self.now).reference labels.old }
        ensures { StepsThrough (test self.now).reference labels.old result labels.new };

    /// The statistic of a rearrangement.
    fn value(&self, labels: &[u8]) -> i128
        requires { Contains (test self.now).reference labels.now }
        ensures { result ≡ (test self.now).statistic labels.now };

    /// Whether the test has a tail.
    fn has_tail(&self, tail: Tail) -> bool
        ensures { result ≡ (test self.now).has_tail tail };

    /// The network that runs, with verdicts by the rules of the test.
    fn stages_of(&self, alloc: Global, judge: Judge) -> Result<Self::Built, NoMemory>
        requires { judge ≡ judge_of (test self.now) }
        ensures { let n = running self.now in
            IfOk result (λ built. Self.Built.Stages.network built ≡ n) };

    /// A network that ends at the statistic too, where no key is to be counted.
    fn quick_stages_of(&self, alloc: Global, judge: Judge) -> Result<Self::Built, NoMemory>
        requires { judge ≡ judge_of (test self.now) }
        ensures { let test = test self.now in
            IfOk result (λ built.
            (t : Tail) → Follows test t (Self.Built.Stages.network built)) }
    {
        self.sound();
        self.stages_of(alloc, judge)
    }

    /// The numerators of tails that the test has, by the quick network: how many keys were open is
    /// not told.
    fn numerators(&self, alloc: Global, judge: Judge, tails: Tails) -> Result<TailSums, NoMemory>
        requires judge { judge ≡ judge_of (test self.now) }
        requires tails { HasTails (test self.now) tails }
        ensures { IfOk result (AreNumerators (test self.now) tails) }
    {
        let stages = self.quick_stages_of(alloc, judge)?;
        let sums = tail_sums_by_rooms(alloc, &stages, tails)?;
        Ok(sums)
    }

    /// The sum, over distinct keys that are reached at a stage of the network that runs and lie one
    /// after another, of the key's weight times the summed weight of its extreme completions. Any
    /// way to that sum serves.
    fn sum_onward(
        &self,
        alloc: Global,
        judge: Judge,
        tail: Tail,
        stage: usize,
        keys: &[i128],
        weights: &[u128],
    ) -> Result<u128, NoMemory>
        requires judge { judge ≡ judge_of (test self.now) }
        requires starts { AreStarts (running self.now) stage keys.now weights.now }
        ensures { let n = running self.now in
            IfOk result (λ sum. sum
            ≡ weighted (extreme_weight n tail stage) (nodes_of n.width keys.now weights.now)) }
    {
        let stages = self.stages_of(alloc, judge)?;
        let sum = sum_from_keys(alloc, &stages, tail, stage, keys, weights)?;
        Ok(sum)
    }
}
