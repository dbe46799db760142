// The rooms of Kendall's test.
ghost use Rattle.std.specs.Prelude.{◌≡◌, IfOk};
ghost use Rattle.label_network.specs.LabelSteps.{IsHeld};
ghost use Rattle.kendall_test.specs.KendallSteps.{AreKendallCounts};

use crate::count_codes::code_of;
use crate::counts::{first_choice, next_choice};
use crate::kendall_counts::KendallCounts;
use label_network::{Binomials, weight_in};
use room_network::Rooms;
use std::alloc::Global;
use weights::{NoMemory, total_of};

/// The rooms of Kendall's test: a stage is a distinct first value, ascending, and a choice says how
/// many of its subjects get each second value that is left. A room is one number, the code of the
/// counts that are left.
#[derive(Drop)]
pub struct KendallRooms {
    counts: KendallCounts,
    binomials: Binomials,
    ghost held: { IsHeld binomials.width counts.rows.items },
}

impl KendallRooms {
    /// The rooms of at most 120 subjects with so many of each distinct first value, and so many of
    /// each distinct second one. There are at most [`MAX`](weights::MAX) ways to give the second
    /// values to the subjects.
    pub fn new(alloc: Global, columns: &[u64], rows: &[u64]) -> Result<KendallRooms, NoMemory>
        requires { AreKendallCounts columns.now rows.now }
        ensures columns { IfOk result (λ rooms. rooms.counts.columns.items ≡ columns.now) }
        ensures rows { IfOk result (λ rooms. rooms.counts.rows.items ≡ rows.now) }
    {
        let binomials = Binomials::for_rows(alloc, rows)?;
        let counts = KendallCounts::new(alloc, columns, rows)?;
        Ok(KendallRooms { counts, binomials })
    }
}

impl Rooms for KendallRooms {
    ghost use Rattle.kendall_test.specs.KendallRooms.{kendall_plan};

    ghost plan = { λ s. kendall_plan s.counts.columns.items s.counts.rows.items };

    fn stages(&self) -> usize {
        self.counts.columns.len()
    }

    fn width(&self) -> usize {
        1
    }

    fn choice_width(&self) -> usize {
        self.counts.rows.len()
    }

    fn first(&self, room: &mut [i128]) {
        room[0] = code_of(self.counts.rows.as_slice());
    }

    fn first_choice(&self, stage: usize, room: &[i128], choice: &mut [u64]) {
        let mut numbers = [0u64; 120];
        let counts = &mut numbers[..self.counts.rows.len()];
        self.counts.seat(stage, room);
        self.counts.read_left(stage, room, counts);
        first_choice(self.counts.column(stage), counts, choice);
    }

    fn next_choice(&self, stage: usize, room: &[i128], choice: &mut [u64]) -> bool {
        let mut numbers = [0u64; 120];
        let counts = &mut numbers[..self.counts.rows.len()];
        self.counts.read_left(stage, room, counts);
        next_choice(self.counts.column(stage), counts, choice)
    }

    fn cross(&self, stage: usize, room: &[i128], choice: &[u64], next: &mut [i128]) -> u128 {
        let mut numbers = [0u64; 120];
        let counts = &mut numbers[..self.counts.rows.len()];
        self.counts.choice_seat(stage, room, choice);
        self.counts.read_after(stage, room, choice, counts);
        next[0] = code_of(counts);
        weight_in(&self.binomials, self.counts.column(stage), choice)
    }

    fn rest(&self, stage: usize, room: &[i128]) -> u128 {
        let mut numbers = [0u64; 120];
        let counts = &mut numbers[..self.counts.rows.len()];
        self.counts.seat(stage, room);
        self.counts.read_left(stage, room, counts);
        self.binomials.labellings(counts, total_of(counts))
    }
}
