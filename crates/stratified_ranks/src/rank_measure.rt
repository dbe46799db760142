// The sum of ranks along the ways through the rooms of the stratified rank sum test.
ghost use Rattle.std.specs.Prelude.{◌≡◌, ◌≤◌, pos};
ghost use Rattle.weights.specs.declared.TheConstants.{MAX};
ghost use Rattle.room_network.specs.Meanings.{IsRoom, IsStep};
ghost use Rattle.stratified_ranks.specs.RankRooms.{column_at, rank_floor, rank_meaning, rank_numbers};
ghost use Rattle.stratified_ranks.specs.RankSteps.{AreRankSums, RankChoice, RankSeat};

use crate::rank_columns::Column;
use crate::rank_rooms::{column_of, from_stage};
use crate::rank_sums::{greatest_added, least_added, ranks_of};
use count_rooms::count_in;
use networks::{Interval, Judge};
use room_network::{Operation, ScalarMeasure};
use weights::List;

/// The sum of the second group's ranks. What can still be added is, for each stratum, at least the
/// sum of the least ranks that are left, and at most that of the greatest.
#[derive(Drop)]
pub struct RankMeasure {
    pub(crate) columns: List<Column>,
    pub(crate) judge: Judge,
    ghost right: { AreRankSums columns judge },
}

#[inline(always)]
fn signed(sum: u128) -> i128
    requires { sum ≤ MAX }
    ensures { result ≡ pos sum }
{
    sum as i128
}

impl RankMeasure {
    // What is known of a room that is reached. It does nothing.
    #[inline(always)]
    fn seat(&self, _stage: usize, _room: &[i128])
        requires { IsRoom (rank_meaning self.now.columns self.now.judge) _stage _room.now }
        ensures { RankSeat self.now.columns _stage _room.now }
    {}

    // And of a choice there.
    #[inline(always)]
    fn choice_seat(&self, _stage: usize, _room: &[i128], _choice: &[u64])
        requires { let m = rank_meaning self.now.columns self.now.judge in
            IsStep m _stage _room.now _choice.now }
        ensures { RankChoice (column_at self.now.columns _stage) _room.now _choice.now }
    {}
}

impl ScalarMeasure for RankMeasure {
    ghost floor = { λ m. rank_floor m.columns };

    ghost numbers = { λ m. rank_numbers m.columns m.judge };

    #[inline(always)]
    fn judge(&self) -> &Judge {
        &self.judge
    }

    #[inline(always)]
    fn operation(&self) -> Operation {
        Operation::Sum
    }

    #[inline(always)]
    fn number(&self, stage: usize, room: &[i128], choice: &[u64]) -> i128 {
        self.choice_seat(stage, room, choice);
        let column = column_of(self.columns.as_slice(), stage);
        signed(ranks_of(choice[0], column))
    }

    fn later(&self, stage: usize, room: &[i128]) -> Interval {
        self.seat(stage, room);
        let columns = from_stage(self.columns.as_slice(), stage);
        let count = count_in(room);
        Interval {
            low: signed(least_added(columns, count)),
            high: signed(greatest_added(columns, count)),
        }
    }
}
