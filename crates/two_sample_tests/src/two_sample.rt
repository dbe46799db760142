// Two samples that are prepared for their test.
ghost use Rattle.std.specs.Prelude.{◌≡◌, length, IfOk};
ghost use Rattle.weights.specs.Wide.{Prepares};
ghost use Rattle.sample_reader.specs.Data.{data_of};
ghost use Rattle.two_sample_tests.specs.Columns.{row_scores};
ghost use Rattle.two_sample_tests.specs.TwoSamples.{two_sample_test};
ghost use Rattle.two_sample_tests.specs.SampleSteps.{AreScored};

use crate::even_scores::{even_scores, least_sum};
use concordant_pairs::concordant_sums;
use label_network::LinearStages;
use labelled::{LabelStatistic, Labelled, LinearSum};
use networks::{Judge, TailSums};
use pooled_columns::prepare_scored;
use sample_reader::{Groups, Labels};
use score_convolution::drawn_sums;
use scores::{ScoreKind, labelled_sum};
use std::alloc::Global;
use std::marker::Model;
use weights::{Ints, NoMemory, Nums, PrepareFault, Tail, Tails};

/// A test of two samples whose data are checked.
pub type TwoSample = Labelled<ScoreSum>;

/// The sum of the second sample's scores. It is seen as the kind of scores and the groups that it
/// was prepared of.
#[derive(Drop)]
pub struct ScoreSum {
    // What it was prepared of, by which contracts name it.
    kind: ScoreKind,
    labels: Labels,
    members: Nums,
    values: Ints,
    made: LinearSum,
}

impl Model for ScoreSum {
    ghost use Rattle.two_sample_tests.specs.TwoSamples.{TwoSamples, samples_of};
    ghost use Rattle.two_sample_tests.specs.SampleSteps.{AreScored};

    ghost Value = { TwoSamples };

    ghost view = { λ t. samples_of t.kind t.labels t.members t.values };

    ghost invariant = { λ t. AreScored (samples_of t.kind t.labels t.members t.values) t.made };
}

impl ScoreSum {
    // What was made of the samples.
    fn made(&self) -> &LinearSum
        ensures { AreScored self.now result.now }
    {
        &self.made
    }
}

// A subject of the second sample counts once, and one of the first not at all.
fn row_scores(alloc: Global) -> Result<Ints, NoMemory>
    ensures { IfOk result (λ scores. scores ≡ row_scores) }
{
    let mut scores = Ints::empty(alloc);
    scores.push(0)?;
    scores.push(1)?;
    Ok(scores)
}

/// Prepares the test of two samples by the scores of a kind: the sum of the scores of the group
/// with the second label, over all labellings of the pooled sample with the groups' sizes.
///
/// # Errors
/// `TooWide(Total)` where there are more labellings than `weights::MAX`. Or else
/// `TooWide(Statistic)` where twice the number of subjects times the sum of the absolute scores
/// passes it. Or else `NoMemory` where memory runs out.
pub fn prepare(alloc: Global, kind: ScoreKind, groups: &Groups) -> Result<TwoSample, PrepareFault>
    requires { length groups.now.labels ≡ 2 }
    ensures { Prepares two_sample_test
        (record { kind = kind; groups = data_of groups.now }) result }
{
    let prepared = prepare_scored(alloc, kind, groups, row_scores(alloc)?, 1)?;
    let (made, frame) = prepared.parts();
    let _scored = made.scored();
    let sum = ScoreSum {
        kind,
        labels: groups.labels.copy()?,
        members: groups.members.copy()?,
        values: groups.values.copy()?,
        made,
    };
    Ok(Labelled::framed(sum, frame))
}

impl LabelStatistic for ScoreSum {
    ghost use Rattle.label_network.specs.LabelNetwork.{label_network};
    ghost use Rattle.two_sample_tests.specs.Columns.{two_sample_meaning};
    ghost use Rattle.two_sample_tests.specs.TwoSamples.{two_sample_says};

    type Built = LinearStages;

    ghost says = { two_sample_says };

    ghost network = { λ samples. label_network (two_sample_meaning samples) };

    ghost running = { λ samples. label_network (two_sample_meaning samples) };

    fn sound(&self) {
        let _made = self.made();
    }

    fn sizes(&self) -> &[u64] {
        self.made().sizes()
    }

    fn value(&self, labels: &[u8]) -> i128 {
        labelled_sum(self.made().scored().scores.as_slice(), labels, 1)
    }

    fn has_tail(&self, _tail: Tail) -> bool {
        true
    }

    fn stages_of(&self, alloc: Global, judge: Judge) -> Result<Self::Built, NoMemory> {
        self.made().stages_of(alloc, judge)
    }

    // Where scores rise by one step, by how many pairs of subjects are concordant; else by draws of
    // the smaller sample, or by the network while that has few open keys.
    fn numerators(&self, alloc: Global, judge: Judge, tails: Tails) -> Result<TailSums, NoMemory> {
        self.sound();
        let made = self.made().scored();
        let scores = made.scores.as_slice();
        let sizes = made.sizes.as_slice();
        if let Some(even) = even_scores(scores) {
            let base = least_sum(even, sizes[1]);
            return concordant_sums(alloc, sizes, base, even.step, &judge);
        }
        let stages = self.stages_of(alloc, judge)?;
        let drawn = sizes[1] as usize;
        drawn_sums(alloc, &stages, scores, drawn, &judge, tails)
    }
}
