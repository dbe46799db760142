// The rooms of labels whose sizes stand in falling order.
ghost use Rattle.std.specs.Prelude.{◌≡◌, ◌<◌, ℕ, List, Contains, IfOk, length, slice_index};
ghost use Rattle.std.specs.List.{sum};
ghost use Rattle.completion_bounds.specs.Fillings.{falling};
ghost use Rattle.networks.specs.Network.{IsReached};
ghost use Rattle.room_network.specs.Plans.{alone};
ghost use Rattle.label_network.specs.LabelRooms.{IsLabelled};
ghost use Rattle.label_network.specs.Meanings.{sizes_in};
ghost use Rattle.sorted_tables.specs.ChoiceLines.{choice_lines};
ghost use Rattle.sorted_tables.specs.SortedRooms.{GivesTables, sorted_floor, sorted_plan};
ghost use Rattle.sorted_tables.specs.SortedSteps.{AreSorted, ChoiceSeat, IsGatheredChoice, IsRoomFor, RoomSeat};

use crate::choice_lines::list_choices;
use crate::gathering::{next_gathered, weight_gathered};
use crate::orders::fall_away;
use label_network::{Binomials, first_counts, read_sizes, rest_in, write_sizes};
use room_network::Rooms;
use std::alloc::Global;
use weights::{Line, NoMemory};

// What is known of a choice. It does nothing.
#[inline(always)]
fn choice_seat(_binomials: &Binomials, _column: u64, _room: &[i128], _choice: &[u64])
    requires room { IsRoomFor _binomials.now.width _column _room.now }
    requires choice { IsGatheredChoice _column _room.now _choice.now }
    ensures { ChoiceSeat _binomials.now.width _column _room.now _choice.now }
{}

/// Labels over columns, as [`LabelRooms`](label_network::LabelRooms), but the sizes that remain
/// after a choice stand in falling order. A choice is for the sizes in the order in which they
/// stand then. Of the choices that differ in the order of rows of equal size alone, the first one
/// stands for all, and weighs as much as they do together.
#[derive(Drop)]
pub struct SortedRooms {
    columns: Vec<u64>,
    rows: Vec<u64>,
    binomials: Binomials,
    ghost right: { AreSorted columns.items rows.items binomials.width },
}

impl SortedRooms {
    /// The labels of these columns (how many subjects each has) and rows (how many subjects get
    /// each label), the greatest row first. There are at most 8 rows, as many subjects as labels,
    /// fewer than 2^64, and at most [`MAX`](weights::MAX) labellings.
    pub fn new(alloc: Global, columns: &[u64], rows: &[u64]) -> Result<SortedRooms, NoMemory>
        requires labelled { IsLabelled columns.now rows.now }
        requires falls { falling rows.now ≡ rows.now }
        ensures columns { IfOk result (λ rooms. rooms.columns.items ≡ columns.now) }
        ensures rows { IfOk result (λ rooms. rooms.rows.items ≡ rows.now) }
    {
        let binomials = Binomials::for_rows(alloc, rows)?;
        let columns = Vec::from_slice(alloc, columns)?;
        let rows = Vec::from_slice(alloc, rows)?;
        Ok(SortedRooms {
            columns,
            rows,
            binomials,
        })
    }

    /// The choices of a room, in their order, each with what it leaves: the product of the numbers
    /// of labellings of the choice and of what it leaves; and the choice's weight times the latter.
    /// Before the last two columns these are the tables that complete the room.
    pub fn choice_lines(
        &self,
        alloc: Global,
        stage: usize,
        room: &[i128],
    ) -> Result<Vec<Line>, NoMemory>
        requires reached { let plan = sorted_plan self.now.columns.items self.now.rows.items in
            IsReached (alone plan) stage room.now }
        requires before { stage < length self.now.columns.items }
        ensures { let column = slice_index self.now.columns.items stage in
            IfOk result (λ lines. lines.items ≡ choice_lines column (sizes_in room.now)) }
    {
        self.seat(stage, room);
        list_choices(alloc, &self.binomials, self.column(stage), room)
    }

    // The column of a stage.
    #[inline(always)]
    fn column(&self, stage: usize) -> u64
        requires { stage < length self.now.columns.items }
        ensures { result ≡ slice_index self.now.columns.items stage }
    {
        self.columns[stage]
    }

    // What is known of a room that is reached. It does nothing.
    #[inline(always)]
    fn seat(&self, _stage: usize, _room: &[i128])
        requires { let plan = sorted_plan self.now.columns.items self.now.rows.items in
            IsReached (alone plan) _stage _room.now }
        ensures { RoomSeat self.now.columns.items self.now.rows.items self.now.binomials.width
            _stage _room.now }
    {}

    // And of a choice there.
    #[inline(always)]
    fn choice_at(&self, _stage: usize, _room: &[i128], _choice: &[u64])
        requires { let floor = sorted_floor self.now.columns.items self.now.rows.items in
            Contains (floor.choices _stage _room.now) _choice.now }
        ensures { let column = slice_index self.now.columns.items _stage in
            IsGatheredChoice column _room.now _choice.now }
    {}
}

/// The rows of a table may stand in any order, and so may its columns. The ways through the rooms
/// of the rows in falling order and the columns in rising order are the labellings of the rows and
/// the columns as they are given, each of which is counted once; and a way's choices have as many
/// labellings, one by one, as the columns of the labelling's table.
pub fn sorting_law()
    ensures { (columns rows : List ℕ) → sum columns ≡ sum rows → GivesTables columns rows }
{}

impl Rooms for SortedRooms {
    ghost plan = { λ s. sorted_plan s.columns.items s.rows.items };

    #[inline(always)]
    fn stages(&self) -> usize {
        self.columns.len()
    }

    #[inline(always)]
    fn width(&self) -> usize {
        self.rows.len()
    }

    #[inline(always)]
    fn choice_width(&self) -> usize {
        self.rows.len()
    }

    fn first(&self, room: &mut [i128]) {
        write_sizes(self.rows.as_slice(), room);
    }

    #[inline(always)]
    fn first_choice(&self, stage: usize, room: &[i128], choice: &mut [u64]) {
        self.seat(stage, room);
        first_counts(self.column(stage), room, choice);
    }

    #[inline(always)]
    fn next_choice(&self, stage: usize, room: &[i128], choice: &mut [u64]) -> bool {
        self.seat(stage, room);
        self.choice_at(stage, room, choice);
        next_gathered(self.column(stage), room, choice)
    }

    fn cross(&self, stage: usize, room: &[i128], choice: &[u64], next: &mut [i128]) -> u128 {
        self.seat(stage, room);
        self.choice_at(stage, room, choice);
        let column = self.column(stage);
        choice_seat(&self.binomials, column, room, choice);
        let mut numbers = [0u64; 8];
        let rows = &mut numbers[..room.len()];
        read_sizes(room, rows);
        fall_away(rows, choice, next);
        weight_gathered(&self.binomials, column, rows, choice)
    }

    #[inline(always)]
    fn rest(&self, stage: usize, room: &[i128]) -> u128 {
        self.seat(stage, room);
        rest_in(&self.binomials, room)
    }
}
