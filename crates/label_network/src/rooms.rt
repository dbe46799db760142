// The rooms of labels over columns.
ghost use Rattle.std.specs.Prelude.{◌≡◌, ◌<◌, length, slice_index, Contains, IfOk};
ghost use Rattle.networks.specs.Network.{IsReached};
ghost use Rattle.room_network.specs.Plans.{alone};
ghost use Rattle.label_network.specs.LabelRooms.{GivesLabellings, IsLabelled, label_plan};
ghost use Rattle.label_network.specs.LabelSteps.{AreLabels, ChoiceSeat, RoomSeat};

use crate::binomials::Binomials;
use crate::choice_order::{first_counts, next_counts};
use crate::keys::{rest_in, take_away, weight_in, write_sizes};
use room_network::Rooms;
use std::alloc::Global;
use weights::NoMemory;

/// Labels over columns: a stage is a column, and a choice says how many of its subjects get each
/// label. A room has the sizes that remain, how many of each label are still to be given, and a
/// choice weighs as many labellings as it has.
#[derive(Drop)]
pub struct LabelRooms {
    columns: Vec<u64>,
    rows: Vec<u64>,
    binomials: Binomials,
    ghost right: { AreLabels columns.items rows.items binomials.width },
}

impl LabelRooms {
    /// The labels of these columns (how many subjects each has) and rows (how many subjects get
    /// each label). There are at most 8 rows, as many subjects as labels, fewer than 2^64, and at
    /// most [`MAX`](weights::MAX) labellings.
    pub fn new(alloc: Global, columns: &[u64], rows: &[u64]) -> Result<LabelRooms, NoMemory>
        requires { IsLabelled columns.now rows.now }
        ensures columns { IfOk result (λ rooms. rooms.columns.items ≡ columns.now) }
        ensures rows { IfOk result (λ rooms. rooms.rows.items ≡ rows.now) }
    {
        let binomials = Binomials::for_rows(alloc, rows)?;
        let columns = Vec::from_slice(alloc, columns)?;
        let rows = Vec::from_slice(alloc, rows)?;
        Ok(LabelRooms {
            columns,
            rows,
            binomials,
        })
    }

    /// The grouping law. Tied subjects may be counted by columns: for every function of a table of
    /// counts, its sum over the weighted tables is that over the labellings of single subjects,
    /// each of which is counted once.
    pub fn grouping_law(&self)
        ensures { GivesLabellings self.now.columns.items self.now.rows.items }
    {}

    // What is known of a room that is reached. It does nothing.
    #[inline(always)]
    fn seat(&self, _stage: usize, _room: &[i128])
        requires { let plan = label_plan self.now.columns.items self.now.rows.items in
            IsReached (alone plan) _stage _room.now }
        ensures { RoomSeat self.now.columns.items self.now.rows.items self.now.binomials.width
            _stage _room.now }
    {}

    // And of a choice there.
    #[inline(always)]
    fn choice_seat(&self, _stage: usize, _room: &[i128], _choice: &[u64])
        requires reached { let plan = label_plan self.now.columns.items self.now.rows.items in
            IsReached (alone plan) _stage _room.now }
        requires allowed { let plan = label_plan self.now.columns.items self.now.rows.items in
            Contains (plan.floor.choices _stage _room.now) _choice.now }
        ensures { ChoiceSeat self.now.columns.items self.now.binomials.width _stage _room.now
            _choice.now }
    {}

    // How many subjects the column of a stage has.
    #[inline(always)]
    fn column(&self, stage: usize) -> u64
        requires { stage < length self.now.columns.items }
        ensures { result ≡ slice_index self.now.columns.items stage }
    {
        self.columns.as_slice()[stage]
    }
}

impl Rooms for LabelRooms {
    ghost use Rattle.label_network.specs.LabelRooms.{label_plan};

    ghost plan = { λ s. label_plan s.columns.items s.rows.items };

    #[inline(always)]
    fn stages(&self) -> usize {
        self.columns.len()
    }

    #[inline(always)]
    fn width(&self) -> usize {
        self.rows.len()
    }

    #[inline(always)]
    fn choice_width(&self) -> usize {
        self.rows.len()
    }

    fn first(&self, room: &mut [i128]) {
        write_sizes(self.rows.as_slice(), room);
    }

    #[inline(always)]
    fn first_choice(&self, stage: usize, room: &[i128], choice: &mut [u64]) {
        self.seat(stage, room);
        first_counts(self.column(stage), room, choice);
    }

    #[inline(always)]
    fn next_choice(&self, stage: usize, room: &[i128], choice: &mut [u64]) -> bool {
        self.seat(stage, room);
        next_counts(self.column(stage), room, choice)
    }

    #[inline(always)]
    fn cross(&self, stage: usize, room: &[i128], choice: &[u64], next: &mut [i128]) -> u128 {
        self.seat(stage, room);
        self.choice_seat(stage, room, choice);
        take_away(room, choice, next);
        weight_in(&self.binomials, self.column(stage), choice)
    }

    #[inline(always)]
    fn rest(&self, stage: usize, room: &[i128]) -> u128 {
        self.seat(stage, room);
        rest_in(&self.binomials, room)
    }
}
