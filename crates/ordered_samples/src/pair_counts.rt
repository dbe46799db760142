// The measure of a test of ordered groups.
ghost use Rattle.std.specs.Prelude.{◌≡◌, IfOk};
ghost use Rattle.ordered_samples.specs.PairCounts.{pairs_meaning};
ghost use Rattle.ordered_samples.specs.UmbrellaSteps.{IsCounting};

use crate::pair_points::{column_points, signed, subject_pairs};
use crate::used_pairs::UsedPair;
use label_network::read_sizes;
use networks::{Interval, Judge};
use room_network::{Operation, ScalarMeasure};
use std::alloc::Global;
use weights::NoMemory;

/// The points of labellings over the used pairs of groups: of the subjects that are placed, and of
/// the others what they are sure to add, and what they can.
#[derive(Drop)]
pub struct PairCounts {
    pairs: Vec<UsedPair>,
    rows: Vec<u64>,
    columns: Vec<u64>,
    judge: Judge,
    ghost right: { IsCounting pairs.items rows.items columns.items judge },
}

impl PairCounts {
    /// The measure of groups of these sizes over columns of these sizes.
    pub fn new(
        alloc: Global,
        pairs: &[UsedPair],
        rows: &[u64],
        columns: &[u64],
        judge: Judge,
    ) -> Result<PairCounts, NoMemory>
        requires { IsCounting pairs.now rows.now columns.now judge }
        ensures { IfOk result (λ m.
            pairs_meaning m.pairs.items m.rows.items m.columns.items m.judge
            ≡ pairs_meaning pairs.now rows.now columns.now judge) }
    {
        Ok(PairCounts {
            pairs: Vec::from_slice(alloc, pairs)?,
            rows: Vec::from_slice(alloc, rows)?,
            columns: Vec::from_slice(alloc, columns)?,
            judge,
        })
    }
}

impl ScalarMeasure for PairCounts {
    ghost use Rattle.label_network.specs.LabelNetwork.{over_sizes};
    ghost use Rattle.label_network.specs.LabelRooms.{label_floor};
    ghost use Rattle.ordered_samples.specs.PairCounts.{pairs_numbers};

    ghost floor = { λ m. label_floor m.columns.items m.rows.items };

    ghost numbers = { λ m. over_sizes (pairs_numbers m.pairs.items m.rows.items m.judge) };

    #[inline(always)]
    fn judge(&self) -> &Judge {
        &self.judge
    }

    #[inline(always)]
    fn operation(&self) -> Operation {
        Operation::Sum
    }

    fn number(&self, _stage: usize, room: &[i128], choice: &[u64]) -> i128 {
        let mut numbers = [0u64; 8];
        let left = &mut numbers[..self.rows.len()];
        read_sizes(room, left);
        column_points(self.pairs.as_slice(), self.rows.as_slice(), left, choice) as i128
    }

    // Were all remaining subjects equal, they would add the middle, from which each open pair can
    // take 1, and to which it can add 1.
    fn later(&self, _stage: usize, room: &[i128]) -> Interval {
        let mut numbers = [0u64; 8];
        let left = &mut numbers[..self.rows.len()];
        read_sizes(room, left);
        let pairs = self.pairs.as_slice();
        let open = subject_pairs(pairs, left);
        let middle = column_points(pairs, self.rows.as_slice(), left, left);
        Interval {
            low: signed(middle - open),
            high: signed(middle + open),
        }
    }
}
