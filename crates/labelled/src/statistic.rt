// What a test of labellings offers.
ghost use Rattle.std.specs.Prelude.{◌≡◌, Contains, IfOk};
ghost use Rattle.weights.specs.Labellings.{labellings};
ghost use Rattle.weights.specs.declared.tails.Tail.{Tail};
ghost use Rattle.node_pool.specs.Nodes.{weighted};
ghost use Rattle.node_pool.specs.PoolSteps.{nodes_of};
ghost use Rattle.networks.specs.Completions.{extreme_weight};
ghost use Rattle.networks.specs.Judged.{judge_of};
ghost use Rattle.networks.specs.Network.{Network};
ghost use Rattle.networks.specs.Follows.{AreNumerators, Follows, HasTails};
ghost use Rattle.stage_network.specs.FromKeys.{AreStarts};
ghost use Rattle.labelled.specs.LabelTests.{IsSound, LabelTest, label_test};

use networks::{Judge, Roomed, TailSums};
use stage_network::{sum_from_keys, tail_sums_by_rooms};
use std::alloc::Global;
use weights::{NoMemory, Tail, Tails};

/// The statistic of a test of labellings whose data are checked, and the network that ends at it:
/// with [`Labelled`](crate::Labelled) the test is prepared for both ways.
pub trait LabelStatistic {
    /// Its networks.
    type Built: Roomed + Drop;

    /// What the test is.
    ghost says: { Self → LabelTest };

    /// The network that ends at the statistic, for all tails, as it is written down: the open keys
    /// that are counted are its.
    ghost network: { Self → Network };

    /// The network that runs: the written one, or one whose keys stand for those of that network.
    ghost running: { Self → Network };

    /// What is known of it: no number of the test passes a limit, and the network follows it. It
    /// does nothing.
    fn sound(&self)
        ensures { IsSound (says self.now) (running self.now) (network self.now) };

    /// How many subjects get each label.
    fn sizes(&self) -> &[u64]
        ensures { result.now ≡ (says self.now).sizes };

    /// The statistic of a labelling.
    fn value(&self, labels: &[u8]) -> i128
        requires { Contains (labellings (says self.now).sizes) labels.now }
        ensures { result ≡ (says self.now).statistic labels.now };

    /// Whether the test has a tail.
    fn has_tail(&self, tail: Tail) -> bool
        ensures { result ≡ (says self.now).tails tail };

    /// The network that runs, with verdicts by the rules of the test.
    fn stages_of(&self, alloc: Global, judge: Judge) -> Result<Self::Built, NoMemory>
        requires { judge ≡ judge_of (label_test (says self.now)) }
        ensures { let n = running self.now in
            IfOk result (λ built. Self.Built.Stages.network built ≡ n) };

    /// A network that ends at the statistic too, where no key is to be counted.
    fn quick_stages_of(&self, alloc: Global, judge: Judge) -> Result<Self::Built, NoMemory>
        requires { judge ≡ judge_of (label_test (says self.now)) }
        ensures { let test = label_test (says self.now) in
            IfOk result (λ built.
            (t : Tail) → Follows test t (Self.Built.Stages.network built)) }
    {
        self.sound();
        self.stages_of(alloc, judge)
    }

    /// The numerators of tails that the test has, by the quick network: how many keys were open is
    /// not told.
    fn numerators(&self, alloc: Global, judge: Judge, tails: Tails) -> Result<TailSums, NoMemory>
        requires judge { judge ≡ judge_of (label_test (says self.now)) }
        requires tails { HasTails (label_test (says self.now)) tails }
        ensures { IfOk result (AreNumerators (label_test (says self.now)) tails) }
    {
        let stages = self.quick_stages_of(alloc, judge)?;
        let sums = tail_sums_by_rooms(alloc, &stages, tails)?;
        Ok(sums)
    }

    /// The sum, over distinct keys that are reached at a stage of the network that runs and lie one
    /// after another, of the key's weight times the summed weight of its extreme completions. Any
    /// way to that sum serves.
    fn sum_onward(
        &self,
        alloc: Global,
        judge: Judge,
        tail: Tail,
        stage: usize,
        keys: &[i128],
        weights: &[u128],
    ) -> Result<u128, NoMemory>
        requires judge { judge ≡ judge_of (label_test (says self.now)) }
        requires starts { AreStarts (running self.now) stage keys.now weights.now }
        ensures { let n = running self.now in
            IfOk result (λ sum. sum
            ≡ weighted (extreme_weight n tail stage) (nodes_of n.width keys.now weights.now)) }
    {
        let stages = self.stages_of(alloc, judge)?;
        let sum = sum_from_keys(alloc, &stages, tail, stage, keys, weights)?;
        Ok(sum)
    }
}
