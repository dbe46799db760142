// How many subjects have each distinct value, and what is left of them before a stage.
ghost use Rattle.std.specs.Prelude.{◌≡◌, ◌<◌, ◌≤◌, length, slice_index, IfOk};
ghost use Rattle.std.specs.List.{Contains};
ghost use Rattle.weights.specs.Grouped.{minus};
ghost use Rattle.networks.specs.Network.{IsReached};
ghost use Rattle.room_network.specs.Plans.{alone};
ghost use Rattle.kendall_test.specs.KendallRooms.{code_in, counts_left, kendall_floor, kendall_plan};
ghost use Rattle.kendall_test.specs.KendallSteps.{AreKendallCounts, AreSome, IsCode, IsCoded, KendallChoice, KendallSeat};

use crate::count_codes::read_code;
use crate::counts::take_choice;
use std::alloc::Global;
use weights::{NoMemory, only, total_of};

/// How many subjects have each distinct first value, ascending, and how many have each distinct
/// second value.
#[derive(Drop)]
pub(crate) struct KendallCounts {
    pub columns: Vec<u64>,
    pub rows: Vec<u64>,
    pub ghost right: { AreKendallCounts columns.items rows.items },
}

// The number of a room.
fn code_in(room: &[i128]) -> u128
    requires { IsCode room.now }
    ensures { result ≡ code_in room.now }
{
    only(room) as u128
}

// Writes the counts that are left before a stage.
fn read_room(columns: &[u64], stage: usize, room: &[i128], counts: &mut [u64])
    requires { IsCoded columns.now stage room.now }
    ensures { counts.new ≡ counts_left columns.now (length counts.old) stage room.now }
{
    read_code(total_of(&columns[stage..]), code_in(room), counts);
}

impl KendallCounts {
    pub fn new(alloc: Global, columns: &[u64], rows: &[u64]) -> Result<KendallCounts, NoMemory>
        requires { AreKendallCounts columns.now rows.now }
        ensures columns { IfOk result (λ counts. counts.columns.items ≡ columns.now) }
        ensures rows { IfOk result (λ counts. counts.rows.items ≡ rows.now) }
    {
        Ok(KendallCounts {
            columns: Vec::from_slice(alloc, columns)?,
            rows: Vec::from_slice(alloc, rows)?,
        })
    }

    /// The column of a stage.
    #[inline(always)]
    pub(crate) fn column(&self, stage: usize) -> u64
        requires { stage < length self.now.columns.items }
        ensures { result ≡ slice_index self.now.columns.items stage }
    {
        self.columns[stage]
    }

    /// What is known of a room that is reached. It does nothing.
    #[inline(always)]
    pub(crate) fn seat(&self, _stage: usize, _room: &[i128])
        requires { let plan = kendall_plan self.now.columns.items self.now.rows.items in
            IsReached (alone plan) _stage _room.now }
        ensures { KendallSeat self.now.columns.items self.now.rows.items _stage _room.now }
    {}

    /// And of a choice there. It does nothing.
    #[inline(always)]
    pub(crate) fn choice_seat(&self, _stage: usize, _room: &[i128], _choice: &[u64])
        requires reached { let plan = kendall_plan self.now.columns.items self.now.rows.items in
            IsReached (alone plan) _stage _room.now }
        requires allowed { let floor = kendall_floor self.now.columns.items self.now.rows.items in
            Contains (floor.choices _stage _room.now) _choice.now }
        ensures { KendallChoice self.now.columns.items self.now.rows.items _stage _room.now
            _choice.now }
    {}

    /// Writes the counts that are left before a stage.
    pub fn read_left(&self, stage: usize, room: &[i128], counts: &mut [u64])
        requires reached { let plan = kendall_plan self.now.columns.items self.now.rows.items in
            IsReached (alone plan) stage room.now }
        requires room { length counts.old ≡ length self.now.rows.items }
        ensures left { let m = length self.now.rows.items in
            counts.new ≡ counts_left self.now.columns.items m stage room.now }
        ensures some { AreSome self.now.rows.items counts.new }
    {
        self.seat(stage, room);
        read_room(self.columns.as_slice(), stage, room, counts);
    }

    /// Writes the counts that are left after a choice.
    pub fn read_after(&self, stage: usize, room: &[i128], choice: &[u64], counts: &mut [u64])
        requires reached { let plan = kendall_plan self.now.columns.items self.now.rows.items in
            IsReached (alone plan) stage room.now }
        requires allowed { let floor = kendall_floor self.now.columns.items self.now.rows.items in
            Contains (floor.choices stage room.now) choice.now }
        requires room { length counts.old ≡ length self.now.rows.items }
        ensures left { let m = length self.now.rows.items in
            counts.new ≡ minus (counts_left self.now.columns.items m stage room.now) choice.now }
        ensures some { AreSome self.now.rows.items counts.new }
        ensures chosen { AreSome self.now.rows.items choice.now }
    {
        self.choice_seat(stage, room, choice);
        self.read_left(stage, room, counts);
        take_choice(counts, choice);
    }
}
