// A test of labellings as one whose rearrangements all weigh 1.
ghost use Rattle.std.specs.Prelude.{◌≡◌};
ghost use Rattle.weights.specs.Frames.{IsFrameOf};
ghost use Rattle.weights.specs.Labellings.{number_of_labellings};
ghost use Rattle.labelled.specs.LabelTests.{label_test};

use crate::problem::Unweighted;
use crate::statistic::LabelStatistic;
use crate::unweighted::UnweightedTest;
use enumerate::{first_labelling, next_labelling};
use networks::{Judge, TailSums};
use std::alloc::Global;
use std::marker::Model;
use weights::{Bytes, Frame, NoMemory, Rule, Tail, Tails};

/// A statistic of labellings, with the walk through these. It is seen as the statistic.
#[derive(Drop)]
pub struct ByLabels<S: LabelStatistic> {
    statistic: S,
}

impl<S: LabelStatistic> Model for ByLabels<S> {
    ghost Value = { S };

    ghost view = { λ l. l.statistic };
}

impl<S: LabelStatistic> UnweightedTest for ByLabels<S> {
    ghost use Rattle.labelled.specs.LabelTests.{label_test};

    type Built = S::Built;

    ghost test = { λ l. label_test (S.says l) };

    ghost network = { λ l. S.network l };

    ghost running = { λ l. S.running l };

    fn sound(&self) {
        self.statistic.sound();
    }

    fn first(&self, alloc: Global) -> Result<Bytes, NoMemory> {
        self.statistic.sound();
        first_labelling(alloc, self.statistic.sizes())
    }

    fn next(&self, labels: &mut Bytes) -> bool {
        next_labelling(labels.as_mut_slice())
    }

    fn value(&self, labels: &[u8]) -> i128 {
        self.statistic.value(labels)
    }

    fn has_tail(&self, tail: Tail) -> bool {
        self.statistic.has_tail(tail)
    }

    fn stages_of(&self, alloc: Global, judge: Judge) -> Result<Self::Built, NoMemory> {
        self.statistic.stages_of(alloc, judge)
    }

    fn quick_stages_of(&self, alloc: Global, judge: Judge) -> Result<Self::Built, NoMemory> {
        self.statistic.quick_stages_of(alloc, judge)
    }

    fn numerators(&self, alloc: Global, judge: Judge, tails: Tails) -> Result<TailSums, NoMemory> {
        self.statistic.numerators(alloc, judge, tails)
    }

    fn sum_onward(
        &self,
        alloc: Global,
        judge: Judge,
        tail: Tail,
        stage: usize,
        keys: &[i128],
        weights: &[u128],
    ) -> Result<u128, NoMemory> {
        self.statistic
            .sum_onward(alloc, judge, tail, stage, keys, weights)
    }
}

/// A test of labellings whose data are checked. It is seen as its statistic.
pub type Labelled<S> = Unweighted<ByLabels<S>>;

impl<S: LabelStatistic> Labelled<S> {
    /// The test of a statistic, whose observed labels, scale, factor and centre these are, and of
    /// which there are so many labellings.
    pub fn new(
        statistic: S,
        observed: &[u8],
        scale: u128,
        factor: u128,
        centre: i128,
        total: u128,
    ) -> Labelled<S>
        requires observed { observed.now ≡ (S.says statistic).observed }
        requires scale { scale ≡ (S.says statistic).scale }
        requires factor { factor ≡ (S.says statistic).factor }
        requires centre { centre ≡ (S.says statistic).centre }
        requires total { total ≡ number_of_labellings (S.says statistic).sizes }
        ensures { result ≡ statistic }
    {
        statistic.sound();
        let value = statistic.value(observed);
        let frame = Frame {
            statistic: value,
            scale,
            total,
            two: Rule::far(factor, centre, value),
        };
        Labelled::framed(statistic, frame)
    }

    /// The test of a statistic, of which this is to be said.
    pub fn framed(statistic: S, frame: Frame) -> Labelled<S>
        requires { IsFrameOf (label_test (S.says statistic)) frame }
        ensures { result ≡ statistic }
    {
        Unweighted::of(ByLabels { statistic }, frame)
    }

    /// The statistic, and what is to be said of its test.
    pub fn parts(self) -> (S, Frame)
        ensures statistic { result.0 ≡ self }
        ensures frame { IsFrameOf (label_test (S.says self)) result.1 }
    {
        (self.test.statistic, self.frame)
    }
}
