// The network of a table with odds, by a name: what takes a network is then told of this type, and
// not of all that stands in it.

use crate::odds_rooms::OddsRooms;
use label_network::LinearMeasure;
use networks::{Roomed, Stages, Verdict};
use room_network::{FromScalar, RoomNetwork};
use weights::Tail;

/// What stands in it: the first cell over the rooms of a table with odds.
pub(crate) type CellStages = RoomNetwork<OddsRooms, FromScalar<LinearMeasure>>;

/// The network of the first cell of a table with odds.
#[derive(Drop)]
pub struct OddsStages {
    pub(crate) cell: CellStages,
}

impl Stages for OddsStages {
    ghost network = { λ s. ⟦<CellStages as Stages>⟧.network s.cell };

    fn stages(&self) -> usize {
        self.cell.stages()
    }

    fn width(&self) -> usize {
        self.cell.width()
    }

    fn choice_width(&self) -> usize {
        self.cell.choice_width()
    }

    fn first_key(&self, key: &mut [i128]) {
        self.cell.first_key(key);
    }

    fn first_choice(&self, stage: usize, key: &[i128], choice: &mut [u64]) -> bool {
        self.cell.first_choice(stage, key, choice)
    }

    fn next_choice(&self, stage: usize, key: &[i128], choice: &mut [u64]) -> bool {
        self.cell.next_choice(stage, key, choice)
    }

    fn apply(&self, stage: usize, key: &[i128], choice: &[u64], next: &mut [i128]) -> u128 {
        self.cell.apply(stage, key, choice, next)
    }

    fn rest(&self, stage: usize, key: &[i128]) -> u128 {
        self.cell.rest(stage, key)
    }

    #[inline(always)]
    fn verdict(&self, stage: usize, key: &[i128], tail: Tail) -> Verdict {
        self.cell.verdict(stage, key, tail)
    }

    fn value(&self, key: &[i128]) -> i128 {
        self.cell.value(key)
    }
}

impl Roomed for OddsStages {
    ghost room_width = { λ s. ⟦<CellStages as Roomed>⟧.room_width s.cell };

    ghost step_width = { λ s. ⟦<CellStages as Roomed>⟧.step_width s.cell };

    ghost step_of = { λ s. ⟦<CellStages as Roomed>⟧.step_of s.cell };

    ghost outlook_width = { λ s. ⟦<CellStages as Roomed>⟧.outlook_width s.cell };

    ghost outlook_of = { λ s. ⟦<CellStages as Roomed>⟧.outlook_of s.cell };

    fn room_width(&self) -> usize {
        self.cell.room_width()
    }

    fn cross(&self, stage: usize, key: &[i128], choice: &[u64], room: &mut [i128]) -> u128 {
        self.cell.cross(stage, key, choice, room)
    }

    fn step_width(&self) -> usize {
        self.cell.step_width()
    }

    fn step(&self, stage: usize, room: &[i128], choice: &[u64], step: &mut [i128]) {
        self.cell.step(stage, room, choice, step);
    }

    #[inline(always)]
    fn advance(
        &self,
        stage: usize,
        room: &[i128],
        choice: &[u64],
        step: &[i128],
        partial: &[i128],
        next: &mut [i128],
    ) {
        self.cell.advance(stage, room, choice, step, partial, next);
    }

    fn outlook_width(&self) -> usize {
        self.cell.outlook_width()
    }

    fn outlook(&self, stage: usize, room: &[i128], outlook: &mut [i128]) {
        self.cell.outlook(stage, room, outlook);
    }

    #[inline(always)]
    fn verdict_by(
        &self,
        stage: usize,
        room: &[i128],
        outlook: &[i128],
        partial: &[i128],
        tail: Tail,
    ) -> Verdict {
        self.cell.verdict_by(stage, room, outlook, partial, tail)
    }

    fn is_shift(&self) -> bool {
        self.cell.is_shift()
    }

    fn same_for(
        &self,
        stage: usize,
        room: &[i128],
        outlook: &[i128],
        partial: i128,
        tail: Tail,
    ) -> u128 {
        self.cell.same_for(stage, room, outlook, partial, tail)
    }
}
