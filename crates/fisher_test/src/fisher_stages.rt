// The networks of Fisher's test, under one type with a name: what takes a network is then told of
// this type, and not of all that stands in it.

use crate::sorted_weights::SortedStages;
use crate::weight_measure::WeightStages;
use label_network::LinearStages;
use networks::{Roomed, Stages, Verdict};
use weights::Tail;

/// A network of Fisher's test.
#[derive(Drop)]
pub enum FisherStages {
    /// Of the first cell.
    Cell(LinearStages),
    /// Of the table's weight.
    Weight(WeightStages),
    /// Of the weight with sizes in falling order.
    Sorted(SortedStages),
}

impl Stages for FisherStages {
    ghost use Rattle.fisher_test.specs.FisherStages.{of_kind};

    ghost network = { of_kind ⟦<LinearStages as Stages>⟧.network
        ⟦<WeightStages as Stages>⟧.network
        ⟦<SortedStages as Stages>⟧.network };

    fn stages(&self) -> usize {
        match self {
            FisherStages::Cell(n) => n.stages(),
            FisherStages::Weight(n) => n.stages(),
            FisherStages::Sorted(n) => n.stages(),
        }
    }

    fn width(&self) -> usize {
        match self {
            FisherStages::Cell(n) => n.width(),
            FisherStages::Weight(n) => n.width(),
            FisherStages::Sorted(n) => n.width(),
        }
    }

    fn choice_width(&self) -> usize {
        match self {
            FisherStages::Cell(n) => n.choice_width(),
            FisherStages::Weight(n) => n.choice_width(),
            FisherStages::Sorted(n) => n.choice_width(),
        }
    }

    fn first_key(&self, key: &mut [i128]) {
        match self {
            FisherStages::Cell(n) => n.first_key(key),
            FisherStages::Weight(n) => n.first_key(key),
            FisherStages::Sorted(n) => n.first_key(key),
        }
    }

    fn first_choice(&self, stage: usize, key: &[i128], choice: &mut [u64]) -> bool {
        match self {
            FisherStages::Cell(n) => n.first_choice(stage, key, choice),
            FisherStages::Weight(n) => n.first_choice(stage, key, choice),
            FisherStages::Sorted(n) => n.first_choice(stage, key, choice),
        }
    }

    fn next_choice(&self, stage: usize, key: &[i128], choice: &mut [u64]) -> bool {
        match self {
            FisherStages::Cell(n) => n.next_choice(stage, key, choice),
            FisherStages::Weight(n) => n.next_choice(stage, key, choice),
            FisherStages::Sorted(n) => n.next_choice(stage, key, choice),
        }
    }

    fn apply(&self, stage: usize, key: &[i128], choice: &[u64], next: &mut [i128]) -> u128 {
        match self {
            FisherStages::Cell(n) => n.apply(stage, key, choice, next),
            FisherStages::Weight(n) => n.apply(stage, key, choice, next),
            FisherStages::Sorted(n) => n.apply(stage, key, choice, next),
        }
    }

    fn rest(&self, stage: usize, key: &[i128]) -> u128 {
        match self {
            FisherStages::Cell(n) => n.rest(stage, key),
            FisherStages::Weight(n) => n.rest(stage, key),
            FisherStages::Sorted(n) => n.rest(stage, key),
        }
    }

    fn verdict(&self, stage: usize, key: &[i128], tail: Tail) -> Verdict {
        match self {
            FisherStages::Cell(n) => n.verdict(stage, key, tail),
            FisherStages::Weight(n) => n.verdict(stage, key, tail),
            FisherStages::Sorted(n) => n.verdict(stage, key, tail),
        }
    }

    fn value(&self, key: &[i128]) -> i128 {
        match self {
            FisherStages::Cell(n) => n.value(key),
            FisherStages::Weight(n) => n.value(key),
            FisherStages::Sorted(n) => n.value(key),
        }
    }
}

impl Roomed for FisherStages {
    ghost use Rattle.fisher_test.specs.FisherStages.{of_kind};

    ghost room_width = { of_kind ⟦<LinearStages as Roomed>⟧.room_width
        ⟦<WeightStages as Roomed>⟧.room_width
        ⟦<SortedStages as Roomed>⟧.room_width };

    ghost step_width = { of_kind ⟦<LinearStages as Roomed>⟧.step_width
        ⟦<WeightStages as Roomed>⟧.step_width
        ⟦<SortedStages as Roomed>⟧.step_width };

    ghost step_of = { of_kind ⟦<LinearStages as Roomed>⟧.step_of
        ⟦<WeightStages as Roomed>⟧.step_of
        ⟦<SortedStages as Roomed>⟧.step_of };

    ghost outlook_width = { of_kind ⟦<LinearStages as Roomed>⟧.outlook_width
        ⟦<WeightStages as Roomed>⟧.outlook_width
        ⟦<SortedStages as Roomed>⟧.outlook_width };

    ghost outlook_of = { of_kind ⟦<LinearStages as Roomed>⟧.outlook_of
        ⟦<WeightStages as Roomed>⟧.outlook_of
        ⟦<SortedStages as Roomed>⟧.outlook_of };

    fn room_width(&self) -> usize {
        match self {
            FisherStages::Cell(n) => n.room_width(),
            FisherStages::Weight(n) => n.room_width(),
            FisherStages::Sorted(n) => n.room_width(),
        }
    }

    fn cross(&self, stage: usize, key: &[i128], choice: &[u64], room: &mut [i128]) -> u128 {
        match self {
            FisherStages::Cell(n) => n.cross(stage, key, choice, room),
            FisherStages::Weight(n) => n.cross(stage, key, choice, room),
            FisherStages::Sorted(n) => n.cross(stage, key, choice, room),
        }
    }

    fn step_width(&self) -> usize {
        match self {
            FisherStages::Cell(n) => n.step_width(),
            FisherStages::Weight(n) => n.step_width(),
            FisherStages::Sorted(n) => n.step_width(),
        }
    }

    fn step(&self, stage: usize, room: &[i128], choice: &[u64], step: &mut [i128]) {
        match self {
            FisherStages::Cell(n) => n.step(stage, room, choice, step),
            FisherStages::Weight(n) => n.step(stage, room, choice, step),
            FisherStages::Sorted(n) => n.step(stage, room, choice, step),
        }
    }

    #[inline(always)]
    fn advance(
        &self,
        stage: usize,
        room: &[i128],
        choice: &[u64],
        step: &[i128],
        partial: &[i128],
        next: &mut [i128],
    ) {
        match self {
            FisherStages::Cell(n) => n.advance(stage, room, choice, step, partial, next),
            FisherStages::Weight(n) => n.advance(stage, room, choice, step, partial, next),
            FisherStages::Sorted(n) => n.advance(stage, room, choice, step, partial, next),
        }
    }

    fn outlook_width(&self) -> usize {
        match self {
            FisherStages::Cell(n) => n.outlook_width(),
            FisherStages::Weight(n) => n.outlook_width(),
            FisherStages::Sorted(n) => n.outlook_width(),
        }
    }

    fn outlook(&self, stage: usize, room: &[i128], outlook: &mut [i128]) {
        match self {
            FisherStages::Cell(n) => n.outlook(stage, room, outlook),
            FisherStages::Weight(n) => n.outlook(stage, room, outlook),
            FisherStages::Sorted(n) => n.outlook(stage, room, outlook),
        }
    }

    #[inline(always)]
    fn verdict_by(
        &self,
        stage: usize,
        room: &[i128],
        outlook: &[i128],
        partial: &[i128],
        tail: Tail,
    ) -> Verdict {
        match self {
            FisherStages::Cell(n) => n.verdict_by(stage, room, outlook, partial, tail),
            FisherStages::Weight(n) => n.verdict_by(stage, room, outlook, partial, tail),
            FisherStages::Sorted(n) => n.verdict_by(stage, room, outlook, partial, tail),
        }
    }

    fn is_shift(&self) -> bool {
        match self {
            FisherStages::Cell(n) => n.is_shift(),
            FisherStages::Weight(n) => n.is_shift(),
            FisherStages::Sorted(n) => n.is_shift(),
        }
    }

    fn same_for(
        &self,
        stage: usize,
        room: &[i128],
        outlook: &[i128],
        partial: i128,
        tail: Tail,
    ) -> u128 {
        match self {
            FisherStages::Cell(n) => n.same_for(stage, room, outlook, partial, tail),
            FisherStages::Weight(n) => n.same_for(stage, room, outlook, partial, tail),
            FisherStages::Sorted(n) => n.same_for(stage, room, outlook, partial, tail),
        }
    }
}
