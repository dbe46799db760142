// The network of a linear statistic, by a name: a type with its own networks is told of in a few
// words where what stands in it would be told of in many.
ghost use Rattle.std.specs.Prelude.{◌≡◌, ◌≤◌, length, IfOk};
ghost use Rattle.weights.specs.Labellings.{number_of_labellings};
ghost use Rattle.weights.specs.declared.TheConstants.{MAX};
ghost use Rattle.label_network.specs.LabelNetwork.{label_network};
ghost use Rattle.label_network.specs.Linear.{IsLinear, linear_meaning};

use crate::linear::LinearMeasure;
use crate::network::{LabelNetwork, label_stages};
use networks::{Judge, Roomed, Stages, Verdict};
use room_network::FromScalar;
use std::alloc::Global;
use weights::{NoMemory, Tail};

// What stands in it.
type Labels = LabelNetwork<FromScalar<LinearMeasure>>;

/// The network of a sum over the cells of a table of row score times column score times count.
#[derive(Drop)]
pub struct LinearStages {
    labels: Labels,
}

/// The network of the sum over the cells of a table with these sums of row score times column
/// score times count, with verdicts by the judge's rules. There are at least 2 rows, and at most
/// [`MAX`](weights::MAX) labellings.
pub fn linear_stages(
    alloc: Global,
    row_scores: &[i128],
    rows: &[u64],
    column_scores: &[i128],
    columns: &[u64],
    judge: Judge,
) -> Result<LinearStages, NoMemory>
    requires linear { IsLinear row_scores.now rows.now column_scores.now columns.now judge }
    requires some { 2 ≤ length rows.now }
    requires total { number_of_labellings rows.now ≤ MAX }
    ensures { let m = linear_meaning row_scores.now rows.now column_scores.now columns.now judge in
        IfOk result (λ s. ⟦<LinearStages as Stages>⟧.network s ≡ label_network m) }
{
    let measure = LinearMeasure::new(alloc, row_scores, rows, column_scores, columns, judge)?;
    let labels = label_stages(alloc, columns, rows, FromScalar::new(measure))?;
    Ok(LinearStages { labels })
}

impl Stages for LinearStages {
    ghost network = { λ s. ⟦<Labels as Stages>⟧.network s.labels };

    fn stages(&self) -> usize {
        self.labels.stages()
    }

    fn width(&self) -> usize {
        self.labels.width()
    }

    fn choice_width(&self) -> usize {
        self.labels.choice_width()
    }

    fn first_key(&self, key: &mut [i128]) {
        self.labels.first_key(key);
    }

    fn first_choice(&self, stage: usize, key: &[i128], choice: &mut [u64]) -> bool {
        self.labels.first_choice(stage, key, choice)
    }

    fn next_choice(&self, stage: usize, key: &[i128], choice: &mut [u64]) -> bool {
        self.labels.next_choice(stage, key, choice)
    }

    fn apply(&self, stage: usize, key: &[i128], choice: &[u64], next: &mut [i128]) -> u128 {
        self.labels.apply(stage, key, choice, next)
    }

    fn rest(&self, stage: usize, key: &[i128]) -> u128 {
        self.labels.rest(stage, key)
    }

    #[inline(always)]
    fn verdict(&self, stage: usize, key: &[i128], tail: Tail) -> Verdict {
        self.labels.verdict(stage, key, tail)
    }

    fn value(&self, key: &[i128]) -> i128 {
        self.labels.value(key)
    }
}

impl Roomed for LinearStages {
    ghost room_width = { λ s. ⟦<Labels as Roomed>⟧.room_width s.labels };

    ghost step_width = { λ s. ⟦<Labels as Roomed>⟧.step_width s.labels };

    ghost step_of = { λ s. ⟦<Labels as Roomed>⟧.step_of s.labels };

    ghost outlook_width = { λ s. ⟦<Labels as Roomed>⟧.outlook_width s.labels };

    ghost outlook_of = { λ s. ⟦<Labels as Roomed>⟧.outlook_of s.labels };

    fn room_width(&self) -> usize {
        self.labels.room_width()
    }

    fn cross(&self, stage: usize, key: &[i128], choice: &[u64], room: &mut [i128]) -> u128 {
        self.labels.cross(stage, key, choice, room)
    }

    fn step_width(&self) -> usize {
        self.labels.step_width()
    }

    fn step(&self, stage: usize, room: &[i128], choice: &[u64], step: &mut [i128]) {
        self.labels.step(stage, room, choice, step);
    }

    #[inline(always)]
    fn advance(
        &self,
        stage: usize,
        room: &[i128],
        choice: &[u64],
        step: &[i128],
        partial: &[i128],
        next: &mut [i128],
    ) {
        self.labels
            .advance(stage, room, choice, step, partial, next);
    }

    fn outlook_width(&self) -> usize {
        self.labels.outlook_width()
    }

    fn outlook(&self, stage: usize, room: &[i128], outlook: &mut [i128]) {
        self.labels.outlook(stage, room, outlook);
    }

    #[inline(always)]
    fn verdict_by(
        &self,
        stage: usize,
        room: &[i128],
        outlook: &[i128],
        partial: &[i128],
        tail: Tail,
    ) -> Verdict {
        self.labels.verdict_by(stage, room, outlook, partial, tail)
    }

    fn is_shift(&self) -> bool {
        self.labels.is_shift()
    }

    fn same_for(
        &self,
        stage: usize,
        room: &[i128],
        outlook: &[i128],
        partial: i128,
        tail: Tail,
    ) -> u128 {
        self.labels.same_for(stage, room, outlook, partial, tail)
    }
}
