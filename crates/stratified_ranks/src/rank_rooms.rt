// The rooms of the stratified rank sum test.
ghost use Rattle.std.specs.Prelude.{◌≡◌, ◌≤◌, ◌<◌, ◌+◌, ◌-◌, ◌*◌, ◌∷◌, length, drop, get_or};
ghost use Rattle.std.specs.Prelude.{Contains, IfOk};
ghost use Rattle.weights.specs.declared.TheConstants.{MAX};
ghost use Rattle.midranks.specs.declared.TheConstants.{MOST_VALUES};
ghost use Rattle.networks.specs.Network.{IsReached};
ghost use Rattle.room_network.specs.Plans.{alone};
ghost use Rattle.stratified_ranks.specs.RankRooms.{column_at, fewest_here, left, most_here};
ghost use Rattle.stratified_ranks.specs.RankRooms.{rank_floor, rank_plan, remaining_after, second_of, ways_of};
ghost use Rattle.stratified_ranks.specs.RankSteps.{AreColumns, AreFitColumns, AreLaterWays};
ghost use Rattle.stratified_ranks.specs.RankSteps.{AreRankRooms, RankChoice, RankSeat, later_ways};

use crate::rank_columns::Column;
use count_rooms::{count_in, write_count, write_remaining};
use room_network::Rooms;
use std::alloc::Global;
use weights::{List, NoMemory, multinomial};

/// The columns of strata as rooms: a stage is a column, a choice says how many of its subjects are
/// of the second group, and a room how many of that group remain in the stratum.
#[derive(Drop)]
pub struct RankRooms {
    pub(crate) columns: List<Column>,
    // How many labellings the strata have that are behind the last stages.
    ways: List<u128>,
    ghost right: { AreRankRooms columns ways },
}

// How many labellings some subjects have, so many of whom are of the second group.
fn ways_of(subjects: u64, second: u64) -> u128
    requires few { subjects ≤ MOST_VALUES }
    requires within { second ≤ subjects }
    requires fits { ways_of subjects second ≤ MAX }
    ensures { result ≡ ways_of subjects second }
{
    match multinomial(&[subjects - second, second]) {
        Some(ways) => ways,
        None => unreachable!(),
    }
}

// How many subjects of the first column's stratum are of the second group.
#[inline(always)]
fn second_of(columns: &[Column]) -> u64
    ensures { result ≡ second_of columns.now }
{
    match columns {
        [] => 0,
        [column, ..] => column.second,
    }
}

// How many remain behind a column, before others, that has some of the second group.
#[inline(always)]
pub(crate) fn remaining_after(column: Column, later: &[Column], remaining: u64, count: u64) -> u64
    requires { count ≤ remaining }
    ensures { result ≡ remaining_after column later.now remaining count }
{
    if column.later == 0 {
        second_of(later)
    } else {
        remaining - count
    }
}

// How many subjects of the stratum are left from the first column on.
fn left(columns: &[Column]) -> u64
    requires { AreColumns columns.now }
    ensures { result ≡ left columns.now }
{
    match columns {
        [] => 0,
        [column, ..] => column.size + column.later,
    }
}

// The columns from a stage on.
pub(crate) fn from_stage(columns: &[Column], stage: usize) -> &[Column]
    requires { stage ≤ length columns.now }
    ensures { result.now ≡ drop stage columns.now }
{
    &columns[stage..]
}

// The column of a stage.
#[inline(always)]
pub(crate) fn column_of(columns: &[Column], stage: usize) -> Column
    requires { stage < length columns.now }
    ensures { result ≡ column_at columns.now stage }
{
    columns[stage]
}

// The least and the greatest number of a column's subjects that can be of the second group, with so
// many to be placed.
#[inline(always)]
pub(crate) fn fewest_here(column: Column, remaining: u64) -> u64
    ensures { result ≡ fewest_here column remaining }
{
    remaining.saturating_sub(column.later)
}

#[inline(always)]
pub(crate) fn most_here(column: Column, remaining: u64) -> u64
    ensures { result ≡ most_here column remaining }
{
    column.size.min(remaining)
}

fn product(a: u128, b: u128) -> u128
    requires { a * b ≤ MAX }
    ensures { result ≡ a * b }
{
    a * b
}

// How many labellings the strata have that are behind a column, where those behind the next one
// have so many.
fn more_ways(column: Column, later: &[Column], behind: u128) -> u128
    requires sound { AreColumns (column ∷ later.now) }
    requires fits { later_ways (column ∷ later.now) ≤ MAX }
    requires behind { behind ≡ later_ways later.now }
    ensures { result ≡ later_ways (column ∷ later.now) }
{
    if column.later == 0 {
        product(ways_of(left(later), second_of(later)), behind)
    } else {
        behind
    }
}

// How many labellings the strata have that are behind the last stages.
fn later_ways(alloc: Global, columns: &[Column]) -> Result<List<u128>, NoMemory>
    requires sound { AreColumns columns.now }
    requires fits { later_ways columns.now ≤ MAX }
    ensures { IfOk result (AreLaterWays columns.now (length columns.now)) }
{
    let mut ways = List::empty(alloc);
    ways.push(1)?;
    for done in 0..columns.len() {
        let stage = columns.len() - done - 1;
        let behind = ways.as_slice()[done];
        let later = from_stage(columns, stage + 1);
        ways.push(more_ways(column_of(columns, stage), later, behind))?;
    }
    Ok(ways)
}

impl RankRooms {
    /// The rooms of columns.
    pub(crate) fn new(alloc: Global, columns: List<Column>) -> Result<RankRooms, NoMemory>
        requires { AreFitColumns columns }
        ensures { IfOk result (λ rooms. rooms.columns ≡ columns) }
    {
        let ways = later_ways(alloc, columns.as_slice())?;
        Ok(RankRooms { columns, ways })
    }

    // How many labellings the strata have that are behind a stage.
    fn behind(&self, stage: usize) -> u128
        requires { stage ≤ length self.now.columns }
        ensures { result ≡ later_ways (drop stage self.now.columns) }
    {
        self.ways.as_slice()[self.columns.len() - stage]
    }

    // What is known of a room that is reached. It does nothing.
    #[inline(always)]
    fn seat(&self, _stage: usize, _room: &[i128])
        requires { IsReached (alone (rank_plan self.now.columns)) _stage _room.now }
        ensures { RankSeat self.now.columns _stage _room.now }
    {}

    // And of a choice there.
    #[inline(always)]
    fn choice_seat(&self, _stage: usize, _room: &[i128], _choice: &[u64])
        requires reached { IsReached (alone (rank_plan self.now.columns)) _stage _room.now }
        requires before { _stage < length self.now.columns }
        requires allowed { let floor = rank_floor self.now.columns in
            Contains (floor.choices _stage _room.now) _choice.now }
        ensures { RankChoice (column_at self.now.columns _stage) _room.now _choice.now }
    {}
}

impl Rooms for RankRooms {
    ghost plan = { λ s. rank_plan s.columns };

    fn stages(&self) -> usize {
        self.columns.len()
    }

    fn width(&self) -> usize {
        1
    }

    fn choice_width(&self) -> usize {
        1
    }

    fn first(&self, room: &mut [i128]) {
        write_remaining(room, second_of(self.columns.as_slice()));
    }

    fn first_choice(&self, stage: usize, room: &[i128], choice: &mut [u64]) {
        self.seat(stage, room);
        let column = column_of(self.columns.as_slice(), stage);
        write_count(choice, fewest_here(column, count_in(room)));
    }

    fn next_choice(&self, stage: usize, room: &[i128], choice: &mut [u64]) -> bool {
        self.seat(stage, room);
        let column = column_of(self.columns.as_slice(), stage);
        if choice[0] < most_here(column, count_in(room)) {
            choice[0] += 1;
            true
        } else {
            false
        }
    }

    fn cross(&self, stage: usize, room: &[i128], choice: &[u64], next: &mut [i128]) -> u128 {
        self.seat(stage, room);
        self.choice_seat(stage, room, choice);
        let column = column_of(self.columns.as_slice(), stage);
        let later = from_stage(self.columns.as_slice(), stage + 1);
        let count = choice[0];
        write_remaining(next, remaining_after(column, later, count_in(room), count));
        ways_of(column.size, count)
    }

    fn rest(&self, stage: usize, room: &[i128]) -> u128 {
        self.seat(stage, room);
        let later = from_stage(self.columns.as_slice(), stage);
        product(ways_of(left(later), count_in(room)), self.behind(stage))
    }
}
