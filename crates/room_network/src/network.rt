// The network of a measure over rooms.
ghost use Rattle.std.specs.Prelude.{◌≡◌};
ghost use Rattle.room_network.specs.RoomNetworks.{EndsAtMembers, IsHoused, room_network};

use crate::measure::Measure;
use crate::rooms::Rooms;
use networks::{Roomed, Stages, Verdict, behind, front};
use std::marker::Model;
use weights::Tail;

/// The network of a measure over rooms: a key has a room, and then the measure's partial. It is
/// seen as the two.
#[derive(Drop)]
pub struct RoomNetwork<R: Rooms, M: Measure> {
    rooms: R,
    measure: M,
}

impl<R: Rooms, M: Measure> Model for RoomNetwork<R, M> {
    ghost use Rattle.room_network.specs.RoomSteps.{IsFounded};

    ghost Value = { R × M };

    ghost view = { λ s. (s.rooms, s.measure) };

    ghost invariant = { λ s. IsFounded (R.plan s.rooms) (M.meaning s.measure) };
}

impl<R: Rooms, M: Measure> RoomNetwork<R, M> {
    /// The network of a measure over its rooms. A room and a partial have 1 to 16 numbers together.
    /// Whatever list the rooms give, the network ends at the values of its members, with their
    /// weights.
    pub fn new(rooms: R, measure: M) -> RoomNetwork<R, M>
        requires { IsHoused (R.plan rooms) (M.meaning measure) }
        ensures parts { result ≡ (rooms, measure) }
        ensures ends { EndsAtMembers (R.plan rooms) (M.meaning measure) }
    {
        let _count = rooms.stages();
        let _slots = measure.slots();
        RoomNetwork { rooms, measure }
    }
}

impl<R: Rooms, M: Measure> Stages for RoomNetwork<R, M> {
    ghost network = { λ s. room_network (M.meaning s.1) (R.plan s.0).weight };

    fn stages(&self) -> usize {
        self.rooms.stages()
    }

    fn width(&self) -> usize {
        self.rooms.width() + self.measure.slots()
    }

    fn choice_width(&self) -> usize {
        self.rooms.choice_width()
    }

    fn first_key(&self, key: &mut [i128]) {
        let width = self.rooms.width();
        self.rooms.first(&mut key[..width]);
        self.measure.first(&mut key[width..]);
    }

    fn first_choice(&self, stage: usize, key: &[i128], choice: &mut [u64]) -> bool {
        if stage >= self.rooms.stages() {
            return false;
        }
        self.rooms
            .first_choice(stage, front(key, self.rooms.width()), choice);
        true
    }

    fn next_choice(&self, stage: usize, key: &[i128], choice: &mut [u64]) -> bool {
        self.rooms
            .next_choice(stage, front(key, self.rooms.width()), choice)
    }

    fn apply(&self, stage: usize, key: &[i128], choice: &[u64], next: &mut [i128]) -> u128 {
        let width = self.rooms.width();
        let room = front(key, width);
        let weight = self.rooms.cross(stage, room, choice, &mut next[..width]);
        self.measure.advance(stage, room, choice, behind(key, width), &mut next[width..]);
        weight
    }

    fn rest(&self, stage: usize, key: &[i128]) -> u128 {
        self.rooms.rest(stage, front(key, self.rooms.width()))
    }

    #[inline(always)]
    fn verdict(&self, stage: usize, key: &[i128], tail: Tail) -> Verdict {
        let width = self.rooms.width();
        self.measure
            .verdict(stage, front(key, width), behind(key, width), tail)
    }

    fn value(&self, key: &[i128]) -> i128 {
        self.measure.value(behind(key, self.rooms.width()))
    }
}

impl<R: Rooms, M: Measure> Roomed for RoomNetwork<R, M> {
    ghost room_width = { λ s. (M.meaning s.1).floor.width };

    ghost step_width = { λ s. (M.meaning s.1).step_width };

    ghost step_of = { λ s. (M.meaning s.1).step };

    ghost outlook_width = { λ s. (M.meaning s.1).outlook_width };

    ghost outlook_of = { λ s. (M.meaning s.1).outlook };

    fn room_width(&self) -> usize {
        self.rooms.width()
    }

    fn cross(&self, stage: usize, key: &[i128], choice: &[u64], room: &mut [i128]) -> u128 {
        self.rooms
            .cross(stage, front(key, self.rooms.width()), choice, room)
    }

    fn step_width(&self) -> usize {
        self.measure.step_width()
    }

    fn step(&self, stage: usize, room: &[i128], choice: &[u64], step: &mut [i128]) {
        self.measure.step(stage, room, choice, step);
    }

    #[inline(always)]
    fn advance(
        &self,
        stage: usize,
        room: &[i128],
        choice: &[u64],
        step: &[i128],
        partial: &[i128],
        next: &mut [i128],
    ) {
        self.measure
            .follow(stage, room, choice, step, partial, next);
    }

    fn outlook_width(&self) -> usize {
        self.measure.outlook_width()
    }

    fn outlook(&self, stage: usize, room: &[i128], outlook: &mut [i128]) {
        self.measure.outlook(stage, room, outlook);
    }

    #[inline(always)]
    fn verdict_by(
        &self,
        stage: usize,
        room: &[i128],
        outlook: &[i128],
        partial: &[i128],
        tail: Tail,
    ) -> Verdict {
        self.measure.verdict_by(stage, room, outlook, partial, tail)
    }

    fn is_shift(&self) -> bool {
        self.measure.is_shift()
    }

    fn same_for(
        &self,
        stage: usize,
        room: &[i128],
        outlook: &[i128],
        partial: i128,
        tail: Tail,
    ) -> u128 {
        self.measure.same_for(stage, room, outlook, partial, tail)
    }
}
