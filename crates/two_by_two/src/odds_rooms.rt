// The rooms of a table with odds.
ghost use Rattle.std.specs.Prelude.{◌≡◌, ◌<◌, length, slice_index, IfOk};
ghost use Rattle.label_network.specs.LabelSteps.{AreSizes};
ghost use Rattle.label_network.specs.Meanings.{sizes_in};
ghost use Rattle.two_by_two.specs.OddsSteps.{AreWeighted};

use crate::odds_weights::{exact_power, odds_at};
use label_network::{LabelRooms, read_sizes};
use room_network::Rooms;
use std::alloc::Global;
use weights::{NoMemory, Odds};

/// The labels of a table of two rows and two columns with odds: a choice weighs as many labellings
/// as it has, times the odds of its subjects of the first row, which are one number of the ratio in
/// the first column and the other in the second.
#[derive(Drop)]
pub struct OddsRooms {
    odds: Odds,
    // What all labellings weigh.
    total: u128,
    labels: LabelRooms,
    ghost right: { AreWeighted odds labels.columns.items labels.rows.items total },
}

// How many subjects of the first row a choice has.
fn first_count(choice: &[u64]) -> u64
    requires { length choice.now ≡ 2 }
    ensures { result ≡ slice_index choice.now 0 }
{
    choice[0]
}

// How many subjects of the first row remain in a room.
fn first_size(room: &[i128]) -> u64
    requires two { length room.now ≡ 2 }
    requires sizes { AreSizes room.now }
    ensures { result ≡ slice_index (sizes_in room.now) 0 }
{
    let mut sizes = [0u64; 2];
    read_sizes(room, &mut sizes);
    sizes[0]
}

impl OddsRooms {
    /// The rooms of a table with these columns (how many subjects each has) and rows, whose
    /// labellings weigh so much in all.
    pub(crate) fn new(
        alloc: Global,
        odds: Odds,
        columns: &[u64],
        rows: &[u64],
        total: u128,
    ) -> Result<OddsRooms, NoMemory>
        requires { AreWeighted odds columns.now rows.now total }
        ensures odds { IfOk result (λ rooms. rooms.odds ≡ odds) }
        ensures columns { IfOk result (λ made. made.labels.columns.items ≡ columns.now) }
        ensures rows { IfOk result (λ made. made.labels.rows.items ≡ rows.now) }
    {
        let labels = LabelRooms::new(alloc, columns, rows)?;
        Ok(OddsRooms {
            odds,
            total,
            labels,
        })
    }
}

impl Rooms for OddsRooms {
    ghost use Rattle.two_by_two.specs.OddsNetworks.{odds_plan};

    ghost plan = { λ s. odds_plan s.odds s.labels.columns.items s.labels.rows.items };

    fn stages(&self) -> usize {
        self.labels.stages()
    }

    fn width(&self) -> usize {
        self.labels.width()
    }

    fn choice_width(&self) -> usize {
        self.labels.choice_width()
    }

    fn first(&self, room: &mut [i128]) {
        self.labels.first(room);
    }

    fn first_choice(&self, stage: usize, room: &[i128], choice: &mut [u64]) {
        self.labels.first_choice(stage, room, choice);
    }

    fn next_choice(&self, stage: usize, room: &[i128], choice: &mut [u64]) -> bool {
        self.labels.next_choice(stage, room, choice)
    }

    fn cross(&self, stage: usize, room: &[i128], choice: &[u64], next: &mut [i128]) -> u128 {
        let ways = self.labels.cross(stage, room, choice, next);
        ways * exact_power(odds_at(self.odds, stage), first_count(choice))
    }

    // All that remain after the first column are in the second.
    fn rest(&self, stage: usize, room: &[i128]) -> u128 {
        if stage == 0 {
            self.total
        } else if stage == 1 {
            let ways = self.labels.rest(stage, room);
            ways * exact_power(self.odds.below, first_size(room))
        } else {
            1
        }
    }
}
