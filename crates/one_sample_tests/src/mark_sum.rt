// The statistic of a test of one sample, and both ways to it.
ghost use Rattle.std.specs.Prelude.{◌≡◌};
ghost use Rattle.one_sample_tests.specs.SignedSamples.{sample_of};
ghost use Rattle.one_sample_tests.specs.SampleSteps.{AreMarked};

use crate::kinds::SignKind;
use crate::mark_stages::MarkStages;
use crate::marks::{first_marks, scores_of};
use crate::scored_marks::ScoredMarks;
use enumerate::next_signs;
use labelled::UnweightedTest;
use networks::{AdditiveStages, Judge, TailSums};
use score_convolution::{sign_sum_onward, sign_sums};
use scores::labelled_sum;
use std::alloc::Global;
use std::marker::Model;
use weights::{Bytes, Ints, NoMemory, Tail, Tails};

/// The sum of the scores of the plus marks. It is seen as the kind of scores and the differences
/// that it was prepared of.
#[derive(Drop)]
pub struct MarkSum {
    // What it was prepared of, by which contracts name it.
    kind: SignKind,
    differences: Ints,
    made: ScoredMarks,
}

impl Model for MarkSum {
    ghost use Rattle.one_sample_tests.specs.SignedSamples.{SignedSample, sample_of};
    ghost use Rattle.one_sample_tests.specs.SampleSteps.{AreMarked};

    ghost Value = { SignedSample };

    ghost view = { λ s. sample_of s.kind s.differences };

    ghost invariant = { λ s. AreMarked (sample_of s.kind s.differences) s.made };
}

impl MarkSum {
    /// That of differences of which this was made.
    pub(crate) fn new(kind: SignKind, differences: Ints, made: ScoredMarks) -> MarkSum
        requires { AreMarked (sample_of kind differences) made }
        ensures { result ≡ sample_of kind differences }
    {
        MarkSum {
            kind,
            differences,
            made,
        }
    }

    // What was made of the differences.
    fn made(&self) -> &ScoredMarks
        ensures { AreMarked self.now result.now }
    {
        &self.made
    }
}

impl UnweightedTest for MarkSum {
    ghost use Rattle.one_sample_tests.specs.SignedSamples.{one_sample_test};
    ghost use Rattle.one_sample_tests.specs.SignNetwork.{mark_network};

    type Built = AdditiveStages<MarkStages>;

    ghost test = { one_sample_test };

    ghost network = { mark_network };

    ghost running = { mark_network };

    fn sound(&self) {
        let _made = self.made();
    }

    fn first(&self, alloc: Global) -> Result<Bytes, NoMemory> {
        first_marks(alloc, self.made().scores.len())
    }

    fn next(&self, labels: &mut Bytes) -> bool {
        next_signs(labels.as_mut_slice())
    }

    fn value(&self, labels: &[u8]) -> i128 {
        labelled_sum(self.made().scores.as_slice(), labels, 1)
    }

    fn has_tail(&self, _tail: Tail) -> bool {
        true
    }

    fn stages_of(&self, alloc: Global, judge: Judge) -> Result<Self::Built, NoMemory> {
        let groups = self.made().groups.copy()?;
        AdditiveStages::new(alloc, MarkStages { groups, judge })
    }

    // By draws of the plus marks, or by the network while that has few open keys.
    fn numerators(&self, alloc: Global, judge: Judge, tails: Tails) -> Result<TailSums, NoMemory> {
        self.sound();
        let stages = self.stages_of(alloc, judge)?;
        let scores = self.made().scores.as_slice();
        sign_sums(alloc, &stages, scores, &judge, tails)
    }

    // By draws of the marks that are left after the stage, or by the network.
    fn sum_onward(
        &self,
        alloc: Global,
        judge: Judge,
        tail: Tail,
        stage: usize,
        keys: &[i128],
        weights: &[u128],
    ) -> Result<u128, NoMemory> {
        let stages = self.stages_of(alloc, judge)?;
        let left = scores_of(alloc, &self.made().groups.as_slice()[stage..])?;
        let scores = left.as_slice();
        sign_sum_onward(alloc, &stages, tail, stage, keys, weights, scores, &judge)
    }
}
