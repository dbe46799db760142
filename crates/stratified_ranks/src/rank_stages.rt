// The network of the stratified rank sum test, by a name: what takes a network is then told of this
// type, and not of all that stands in it.

use crate::rank_measure::RankMeasure;
use crate::rank_rooms::RankRooms;
use networks::{Roomed, Stages, Verdict};
use room_network::{FromScalar, RoomNetwork};
use weights::Tail;

/// What stands in it: the sum of ranks over the rooms of strata.
pub(crate) type RankNetwork = RoomNetwork<RankRooms, FromScalar<RankMeasure>>;

/// The network of the stratified rank sum test.
#[derive(Drop)]
pub struct RankStages {
    pub(crate) network: RankNetwork,
}

impl Stages for RankStages {
    ghost network = { λ s. ⟦<RankNetwork as Stages>⟧.network s.network };

    fn stages(&self) -> usize {
        self.network.stages()
    }

    fn width(&self) -> usize {
        self.network.width()
    }

    fn choice_width(&self) -> usize {
        self.network.choice_width()
    }

    fn first_key(&self, key: &mut [i128]) {
        self.network.first_key(key);
    }

    fn first_choice(&self, stage: usize, key: &[i128], choice: &mut [u64]) -> bool {
        self.network.first_choice(stage, key, choice)
    }

    fn next_choice(&self, stage: usize, key: &[i128], choice: &mut [u64]) -> bool {
        self.network.next_choice(stage, key, choice)
    }

    fn apply(&self, stage: usize, key: &[i128], choice: &[u64], next: &mut [i128]) -> u128 {
        self.network.apply(stage, key, choice, next)
    }

    fn rest(&self, stage: usize, key: &[i128]) -> u128 {
        self.network.rest(stage, key)
    }

    #[inline(always)]
    fn verdict(&self, stage: usize, key: &[i128], tail: Tail) -> Verdict {
        self.network.verdict(stage, key, tail)
    }

    fn value(&self, key: &[i128]) -> i128 {
        self.network.value(key)
    }
}

impl Roomed for RankStages {
    ghost room_width = { λ s. ⟦<RankNetwork as Roomed>⟧.room_width s.network };

    ghost step_width = { λ s. ⟦<RankNetwork as Roomed>⟧.step_width s.network };

    ghost step_of = { λ s. ⟦<RankNetwork as Roomed>⟧.step_of s.network };

    ghost outlook_width = { λ s. ⟦<RankNetwork as Roomed>⟧.outlook_width s.network };

    ghost outlook_of = { λ s. ⟦<RankNetwork as Roomed>⟧.outlook_of s.network };

    fn room_width(&self) -> usize {
        self.network.room_width()
    }

    fn cross(&self, stage: usize, key: &[i128], choice: &[u64], room: &mut [i128]) -> u128 {
        self.network.cross(stage, key, choice, room)
    }

    fn step_width(&self) -> usize {
        self.network.step_width()
    }

    fn step(&self, stage: usize, room: &[i128], choice: &[u64], step: &mut [i128]) {
        self.network.step(stage, room, choice, step);
    }

    #[inline(always)]
    fn advance(
        &self,
        stage: usize,
        room: &[i128],
        choice: &[u64],
        step: &[i128],
        partial: &[i128],
        next: &mut [i128],
    ) {
        self.network
            .advance(stage, room, choice, step, partial, next);
    }

    fn outlook_width(&self) -> usize {
        self.network.outlook_width()
    }

    fn outlook(&self, stage: usize, room: &[i128], outlook: &mut [i128]) {
        self.network.outlook(stage, room, outlook);
    }

    #[inline(always)]
    fn verdict_by(
        &self,
        stage: usize,
        room: &[i128],
        outlook: &[i128],
        partial: &[i128],
        tail: Tail,
    ) -> Verdict {
        self.network.verdict_by(stage, room, outlook, partial, tail)
    }

    fn is_shift(&self) -> bool {
        self.network.is_shift()
    }

    fn same_for(
        &self,
        stage: usize,
        room: &[i128],
        outlook: &[i128],
        partial: i128,
        tail: Tail,
    ) -> u128 {
        self.network.same_for(stage, room, outlook, partial, tail)
    }
}
