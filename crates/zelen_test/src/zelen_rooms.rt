// The rooms of Zelen's test.
ghost use Rattle.std.specs.Prelude.{◌≡◌};
ghost use Rattle.zelen_test.specs.ZelenNetwork.{zelen_plan};

use crate::sum_counts::SumCounts;
use count_rooms::{count_in, write_count, write_remaining};
use room_network::Rooms;

/// Each stratum is a stage, and its first cell the choice; a room has what is left of the sum of
/// the first cells.
#[derive(Drop)]
pub struct ZelenRooms {
    counts: SumCounts,
}

impl ZelenRooms {
    pub(crate) fn new(counts: SumCounts) -> ZelenRooms
        ensures { result.counts ≡ counts }
    {
        ZelenRooms { counts }
    }
}

impl Rooms for ZelenRooms {
    ghost plan = { λ s. zelen_plan s.counts.strata s.counts.sum };

    fn stages(&self) -> usize {
        self.counts.strata.len()
    }

    fn width(&self) -> usize {
        1
    }

    fn choice_width(&self) -> usize {
        1
    }

    fn first(&self, room: &mut [i128]) {
        write_remaining(room, self.counts.sum);
    }

    fn first_choice(&self, stage: usize, room: &[i128], choice: &mut [u64]) {
        self.counts.seat(stage, room);
        write_count(choice, self.counts.least_choice(stage, count_in(room)));
    }

    fn next_choice(&self, stage: usize, room: &[i128], choice: &mut [u64]) -> bool {
        self.counts.seat(stage, room);
        if choice[0] < self.counts.greatest_choice(stage, count_in(room)) {
            choice[0] += 1;
            true
        } else {
            false
        }
    }

    fn cross(&self, stage: usize, room: &[i128], choice: &[u64], next: &mut [i128]) -> u128 {
        self.counts.seat(stage, room);
        self.counts.choice_seat(stage, room, choice);
        write_remaining(next, count_in(room) - choice[0]);
        self.counts.weight(stage, choice[0])
    }

    fn rest(&self, stage: usize, room: &[i128]) -> u128 {
        self.counts.seat(stage, room);
        self.counts.number(stage, count_in(room))
    }
}
