// The network of a test of ordered groups, by a name: what takes a network is then told of this
// type, and not of all that stands in it.

use crate::pair_counts::PairCounts;
use label_network::LabelNetwork;
use networks::{Roomed, Stages, Verdict};
use room_network::FromScalar;
use weights::Tail;

/// What stands in it: the pairs of labels.
pub(crate) type PairLabels = LabelNetwork<FromScalar<PairCounts>>;

/// The network of a test of ordered groups.
#[derive(Drop)]
pub struct PairStages {
    pub(crate) labels: PairLabels,
}

impl Stages for PairStages {
    ghost network = { λ s. ⟦<PairLabels as Stages>⟧.network s.labels };

    fn stages(&self) -> usize {
        self.labels.stages()
    }

    fn width(&self) -> usize {
        self.labels.width()
    }

    fn choice_width(&self) -> usize {
        self.labels.choice_width()
    }

    fn first_key(&self, key: &mut [i128]) {
        self.labels.first_key(key);
    }

    fn first_choice(&self, stage: usize, key: &[i128], choice: &mut [u64]) -> bool {
        self.labels.first_choice(stage, key, choice)
    }

    fn next_choice(&self, stage: usize, key: &[i128], choice: &mut [u64]) -> bool {
        self.labels.next_choice(stage, key, choice)
    }

    fn apply(&self, stage: usize, key: &[i128], choice: &[u64], next: &mut [i128]) -> u128 {
        self.labels.apply(stage, key, choice, next)
    }

    fn rest(&self, stage: usize, key: &[i128]) -> u128 {
        self.labels.rest(stage, key)
    }

    #[inline(always)]
    fn verdict(&self, stage: usize, key: &[i128], tail: Tail) -> Verdict {
        self.labels.verdict(stage, key, tail)
    }

    fn value(&self, key: &[i128]) -> i128 {
        self.labels.value(key)
    }
}

impl Roomed for PairStages {
    ghost room_width = { λ s. ⟦<PairLabels as Roomed>⟧.room_width s.labels };

    ghost step_width = { λ s. ⟦<PairLabels as Roomed>⟧.step_width s.labels };

    ghost step_of = { λ s. ⟦<PairLabels as Roomed>⟧.step_of s.labels };

    ghost outlook_width = { λ s. ⟦<PairLabels as Roomed>⟧.outlook_width s.labels };

    ghost outlook_of = { λ s. ⟦<PairLabels as Roomed>⟧.outlook_of s.labels };

    fn room_width(&self) -> usize {
        self.labels.room_width()
    }

    fn cross(&self, stage: usize, key: &[i128], choice: &[u64], room: &mut [i128]) -> u128 {
        self.labels.cross(stage, key, choice, room)
    }

    fn step_width(&self) -> usize {
        self.labels.step_width()
    }

    fn step(&self, stage: usize, room: &[i128], choice: &[u64], step: &mut [i128]) {
        self.labels.step(stage, room, choice, step);
    }

    #[inline(always)]
    fn advance(
        &self,
        stage: usize,
        room: &[i128],
        choice: &[u64],
        step: &[i128],
        partial: &[i128],
        next: &mut [i128],
    ) {
        self.labels
            .advance(stage, room, choice, step, partial, next);
    }

    fn outlook_width(&self) -> usize {
        self.labels.outlook_width()
    }

    fn outlook(&self, stage: usize, room: &[i128], outlook: &mut [i128]) {
        self.labels.outlook(stage, room, outlook);
    }

    #[inline(always)]
    fn verdict_by(
        &self,
        stage: usize,
        room: &[i128],
        outlook: &[i128],
        partial: &[i128],
        tail: Tail,
    ) -> Verdict {
        self.labels.verdict_by(stage, room, outlook, partial, tail)
    }

    fn is_shift(&self) -> bool {
        self.labels.is_shift()
    }

    fn same_for(
        &self,
        stage: usize,
        room: &[i128],
        outlook: &[i128],
        partial: i128,
        tail: Tail,
    ) -> u128 {
        self.labels.same_for(stage, room, outlook, partial, tail)
    }
}
