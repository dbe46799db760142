// Tests of a linear statistic of labellings.
ghost use Rattle.std.specs.Prelude.{◌≡◌, ◌+◌, ◌*◌, ◌<◌, ◌≤◌, ◌+ℤ◌, ◌*ℤ◌, length, unsigned_abs, Ok, Err};
ghost use Rattle.std.specs.List.{All};
ghost use Rattle.weights.specs.Labellings.{number_of_labellings};
ghost use Rattle.weights.specs.Numbers.{absolute_sum};
ghost use Rattle.weights.specs.declared.TheConstants.{MAX};
ghost use Rattle.completion_bounds.specs.Pairings.{greatest_score};
ghost use Rattle.label_network.specs.Linear.{linear_statistic};
ghost use Rattle.weights.specs.Frames.{IsFrameOf};
ghost use Rattle.labelled.specs.LinearTests.{AreFittingLabels, AreScoredLabels, IsFittedTo, linear_label_test, linear_says};

use crate::statistic::LabelStatistic;
use label_network::{LinearStages, linear_stages, score_choice};
use networks::Judge;
use std::alloc::Global;
use std::marker::Model;
use weights::{
    Bytes, Frame, Ints, NoMemory, Nums, PrepareFault, Rule, Tail, WideOf, bounded_product, plus,
    times,
};

/// Labels and subjects with scores.
#[derive(Drop)]
pub struct ScoredLabels {
    /// How many subjects get each label, and the labels' scores.
    pub sizes: Nums,
    pub label_scores: Ints,
    /// The subjects' scores, and how many of them have each distinct one, in the same order.
    pub scores: Ints,
    pub columns: Nums,
    pub column_scores: Ints,
    /// The subjects' labels, as they were observed.
    pub observed: Bytes,
    /// What the statistic is divided by.
    pub scale: u128,
}

/// The sum, over the subjects, of the score of the label times the subject's own score.
#[derive(Drop)]
pub struct LinearSum {
    scored: ScoredLabels,
}

impl Model for LinearSum {
    ghost use Rattle.labelled.specs.declared.linear.ScoredLabels.{ScoredLabels};
    ghost use Rattle.labelled.specs.LinearTests.{AreFittingLabels};

    ghost Value = { ScoredLabels };

    ghost view = { λ s. s.scored };

    ghost invariant = { λ s. AreFittingLabels s.scored };
}

// A sum with one more product.
fn plus_product(sum: i128, label: i128, own: i128) -> i128
    requires { unsigned_abs sum + unsigned_abs label * unsigned_abs own ≤ MAX }
    ensures { result ≡ sum +ℤ (label *ℤ own) }
{
    plus(sum, times(label, own))
}

/// The sum, over the subjects, of the score of the label times the subject's own score.
pub fn linear_statistic(label_scores: &[i128], scores: &[i128], labels: &[u8]) -> i128
    requires labels { All (λ l. l < length label_scores.now) labels.now }
    requires long { length labels.now ≡ length scores.now }
    requires fits { greatest_score label_scores.now * absolute_sum scores.now ≤ MAX }
    ensures { result ≡ linear_statistic label_scores.now scores.now labels.now }
{
    let mut sum: i128 = 0;
    for i in 0..scores.len() {
        sum = plus_product(sum, label_scores[labels[i] as usize], scores[i]);
    }
    sum
}

impl LinearSum {
    /// The statistic of labels and subjects whose greatest absolute label score and sum of absolute
    /// scores these are.
    ///
    /// # Errors
    /// `TooWide(Statistic)` where twice the number of subjects times both passes `weights::MAX`.
    pub fn new(scored: ScoredLabels, greatest: u128, sum: u128) -> Result<LinearSum, PrepareFault>
        requires are { AreScoredLabels scored }
        requires total { number_of_labellings scored.sizes ≤ MAX }
        requires greatest { greatest ≡ greatest_score scored.label_scores }
        requires sum { sum ≡ absolute_sum scored.scores }
        ensures { IsFittedTo scored result }
    {
        let most = bounded_product(greatest, sum);
        let Some(most) = most else {
            return Err(PrepareFault::TooWide(WideOf::Statistic));
        };
        match bounded_product(2 * scored.scores.len() as u128, most) {
            Some(_bound) => Ok(LinearSum { scored }),
            None => Err(PrepareFault::TooWide(WideOf::Statistic)),
        }
    }

    /// The labels and subjects.
    pub fn scored(&self) -> &ScoredLabels
        ensures scored { result.now ≡ self.now }
        ensures fitting { AreFittingLabels self.now }
    {
        &self.scored
    }

    // As many times the mean of the statistic as there are subjects.
    fn centre(&self) -> i128
        ensures { result ≡ (linear_says self.now).centre }
    {
        let scored = self.scored();
        times(
            score_choice(scored.label_scores.as_slice(), scored.sizes.as_slice()),
            score_choice(scored.column_scores.as_slice(), scored.columns.as_slice()),
        )
    }

    /// What is said of its test, of which there are so many labellings.
    pub fn frame(&self, total: u128) -> Frame
        requires { total ≡ number_of_labellings self.now.sizes }
        ensures { IsFrameOf (linear_label_test self.now) result }
    {
        self.sound();
        let scored = self.scored();
        let statistic = self.value(scored.observed.as_slice());
        let factor = scored.scores.len() as u128;
        Frame {
            statistic,
            scale: scored.scale,
            total,
            two: Rule::far(factor, self.centre(), statistic),
        }
    }
}

impl LabelStatistic for LinearSum {
    ghost use Rattle.label_network.specs.LabelNetwork.{label_network};
    ghost use Rattle.labelled.specs.LinearTests.{linear_label_meaning, linear_says};

    type Built = LinearStages;

    ghost says = { linear_says };

    ghost network = { λ s. label_network (linear_label_meaning s) };

    ghost running = { λ s. label_network (linear_label_meaning s) };

    fn sound(&self) {
        let _scored = self.scored();
    }

    fn sizes(&self) -> &[u64] {
        self.scored().sizes.as_slice()
    }

    fn value(&self, labels: &[u8]) -> i128 {
        let scored = self.scored();
        linear_statistic(
            scored.label_scores.as_slice(),
            scored.scores.as_slice(),
            labels,
        )
    }

    fn has_tail(&self, _tail: Tail) -> bool {
        true
    }

    fn stages_of(&self, alloc: Global, judge: Judge) -> Result<Self::Built, NoMemory> {
        let scored = self.scored();
        let us = scored.label_scores.as_slice();
        let rows = scored.sizes.as_slice();
        let scores = scored.column_scores.as_slice();
        let columns = scored.columns.as_slice();
        linear_stages(alloc, us, rows, scores, columns, judge)
    }
}
