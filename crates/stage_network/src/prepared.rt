// A test that can be answered, and its networks.
ghost use Rattle.std.specs.Prelude.{◌≡◌, true, IfOk};
ghost use Rattle.weights.specs.Conditional.{distribution, numerator, total};
ghost use Rattle.weights.specs.Frames.{IsShown};
ghost use Rattle.weights.specs.declared.tails.Tail.{Tail};
ghost use Rattle.node_pool.specs.Nodes.{weighted};
ghost use Rattle.node_pool.specs.PoolSteps.{nodes_of};
ghost use Rattle.networks.specs.Network.{Network};
ghost use Rattle.networks.specs.Completions.{extreme_weight, total_weight};
ghost use Rattle.networks.specs.Follows.{AllFollow, AreNumerators, AreShared};
ghost use Rattle.networks.specs.Follows.{FollowsAlong, HasTails, OpenAlike};
ghost use Rattle.networks.specs.Lines.{TailsFit, WeightsFit};
ghost use Rattle.networks.specs.Written.{AreWritten};
ghost use Rattle.stage_network.specs.FromKeys.{AreStarts};

use crate::first_tails::{first_among, first_asked};
use crate::from_keys::sum_from_keys;
use crate::spreads::spread_by_rooms;
use crate::sums::{tail_sum_by_rooms, tail_sums_by_rooms};
use enumerate::Framed;
use networks::{Roomed, Spread, Stages, TailSum, TailSums};
use std::alloc::Global;
use weights::{NoMemory, Tail, Tails};

/// A test whose data are checked: all that is needed to answer it by both ways.
pub trait Prepared: Framed {
    /// Its networks.
    type Built: Roomed + Drop;

    /// The network of each tail, as it is written down: the open keys that are counted are its.
    ghost network: { Self → Tail → Network };

    /// The network of each tail that runs: its keys stand for those that are written down.
    ghost running: { Self → Tail → Network };

    /// Whether the test has a tail.
    fn has_tail(&self, tail: Tail) -> bool
        ensures has { result ≡ (Self.test self.now).has_tail tail }
        ensures shown { IsShown (Self.test self.now) };

    /// Whether one network serves all tails that the test has, so that one sweep does.
    fn is_shared(&self) -> bool
        ensures { result ≡ true → AreShared (Self.test self.now) (running self.now) }
    {
        false
    }

    /// The network that runs for a tail that the test has. The completions of each tail's network
    /// end at what the tail's rule measures of the rearrangements. It is the one that is written
    /// down, or each of its keys stands for one of that network: open where that one is, and with
    /// as much weight.
    fn stages_of(&self, alloc: Global, tail: Tail) -> Result<Self::Built, NoMemory>
        requires { (Self.test self.now).has_tail tail ≡ true }
        ensures built { let n = running self.now tail in
            IfOk result (λ built. Self.Built.Stages.network built ≡ n) }
        ensures follows { AllFollow (Self.test self.now) (running self.now) }
        ensures written { AreWritten (Self.test self.now) (running self.now) (network self.now) };

    /// A network for a tail that the test has, where no key is to be counted: it may have fewer
    /// keys than the one that is written down. Its completions too end at what is measured of the
    /// rearrangements, for the tail and for each other one that the same network serves.
    fn quick_stages_of(&self, alloc: Global, tail: Tail) -> Result<Self::Built, NoMemory>
        requires { (Self.test self.now).has_tail tail ≡ true }
        ensures { let follows = FollowsAlong (Self.test self.now) (running self.now) tail in
            IfOk result (λ built. follows (Self.Built.Stages.network built)) }
    {
        self.stages_of(alloc, tail)
    }

    /// The numerator of a tail by its quick network; of one that is not asked nothing.
    fn quick_sum(&self, alloc: Global, asked: bool, tail: Tail) -> Result<TailSum, NoMemory>
        requires { asked ≡ true → (Self.test self.now).has_tail tail ≡ true }
        ensures { let sum = numerator (Self.test self.now) tail in
            asked ≡ true → IfOk result (λ found. found.sum ≡ sum) }
    {
        if !asked {
            return Ok(TailSum { sum: 0, opened: 0 });
        }
        let stages = self.quick_stages_of(alloc, tail)?;
        let found = tail_sum_by_rooms(alloc, &stages, tail)?;
        Ok(found)
    }

    /// The numerators of tails that the test has, by the quick networks: how many keys were open is
    /// not told.
    fn numerators(&self, alloc: Global, tails: Tails) -> Result<TailSums, NoMemory>
        requires { HasTails (Self.test self.now) tails }
        ensures { IfOk result (AreNumerators (Self.test self.now) tails) }
    {
        let shared = self.is_shared();
        match first_asked(tails) {
            Some(tail) if shared => {
                let stages = self.quick_stages_of(alloc, tail)?;
                let sums = tail_sums_by_rooms(alloc, &stages, tails)?;
                Ok(sums)
            }
            Some(_) | None => {
                let less = self.quick_sum(alloc, tails.less, Tail::Less)?;
                let greater = self.quick_sum(alloc, tails.greater, Tail::Greater)?;
                let two = self.quick_sum(alloc, tails.two, Tail::Two)?;
                Ok(TailSums { less, greater, two })
            }
        }
    }

    /// The distribution of the test by a quick network. Its weights sum to at most
    /// [`weights::MAX`], and the rule of no tail computes a number of a value that passes a limit.
    fn quick_distribution(&self, alloc: Global) -> Result<Spread, NoMemory>
        ensures lines { IfOk result (λ spread. spread ≡ distribution (Self.test self.now)) }
        ensures weights { IfOk result WeightsFit }
        ensures rules { IfOk result (TailsFit (Self.test self.now)) }
    {
        let _frame = self.frame();
        let tail = first_among(self.has_tail(Tail::Less), self.has_tail(Tail::Greater));
        let stages = self.quick_stages_of(alloc, tail)?;
        let _lawful = stages.stages();
        let found = spread_by_rooms(alloc, &stages)?;
        Ok(found)
    }

    /// The sum, over distinct keys that are reached at a stage of the network that runs and lie one
    /// after another, of the key's weight times the summed weight of its extreme completions. Any
    /// way to that sum serves.
    fn sum_onward(
        &self,
        alloc: Global,
        tail: Tail,
        stage: usize,
        keys: &[i128],
        weights: &[u128],
    ) -> Result<u128, NoMemory>
        requires has { (Self.test self.now).has_tail tail ≡ true }
        requires starts { AreStarts (running self.now tail) stage keys.now weights.now }
        ensures { let n = running self.now tail in
            IfOk result (λ sum. sum
            ≡ weighted (extreme_weight n tail stage) (nodes_of n.width keys.now weights.now)) }
    {
        let stages = self.stages_of(alloc, tail)?;
        let sum = sum_from_keys(alloc, &stages, tail, stage, keys, weights)?;
        Ok(sum)
    }
}

/// The network that runs for a tail that a test has. Its completions end at what the tail's rule
/// measures of the rearrangements: all together weigh as much as these, and those that are extreme
/// as much as the tail's numerator. Each tail's network runs for the one that is written down, and
/// has as many open keys.
pub fn network_of<P: Prepared>(alloc: Global, problem: &P, tail: Tail) -> Result<P::Built, NoMemory>
    requires { (P.test problem.now).has_tail tail ≡ true }
    ensures built { let n = P.running problem.now tail in
        IfOk result (λ built. P.Built.Stages.network built ≡ n) }
    ensures follows { AllFollow (P.test problem.now) (P.running problem.now) }
    ensures whole { let n = P.running problem.now tail in
        total_weight n 0 n.first ≡ total (P.test problem.now) }
    ensures numerator { let n = P.running problem.now tail in
        extreme_weight n tail 0 n.first ≡ numerator (P.test problem.now) tail }
    ensures written { AreWritten (P.test problem.now) (P.running problem.now)
        (P.network problem.now) }
    ensures counted { OpenAlike (P.test problem.now) (P.running problem.now)
        (P.network problem.now) }
{
    problem.stages_of(alloc, tail)
}
