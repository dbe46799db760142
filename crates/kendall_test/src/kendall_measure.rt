// The measure of Kendall's K over the rooms of its test.
ghost use Rattle.std.specs.Prelude.{◌≡◌, IfOk};
ghost use Rattle.kendall_test.specs.KendallNetwork.{kendall_meaning};
ghost use Rattle.kendall_test.specs.KendallSteps.{IsKendall};

use crate::kendall_counts::KendallCounts;
use crate::pairs::{concordance, open_pairs};
use networks::{Interval, Judge};
use room_network::{Operation, ScalarMeasure};
use std::alloc::Global;
use weights::NoMemory;

/// Kendall's K of the pairs with a placed subject; all pairs of two later stages can add as much as
/// there are, or take it away.
#[derive(Drop)]
pub struct KendallMeasure {
    counts: KendallCounts,
    judge: Judge,
    ghost right: { IsKendall counts.columns.items counts.rows.items judge },
}

impl KendallMeasure {
    /// The measure of subjects with so many of each distinct first value, and so many of each
    /// distinct second one.
    pub fn new(
        alloc: Global,
        columns: &[u64],
        rows: &[u64],
        judge: Judge,
    ) -> Result<KendallMeasure, NoMemory>
        requires { IsKendall columns.now rows.now judge }
        ensures { IfOk result (λ m.
            kendall_meaning m.counts.columns.items m.counts.rows.items m.judge
            ≡ kendall_meaning columns.now rows.now judge) }
    {
        let counts = KendallCounts::new(alloc, columns, rows)?;
        Ok(KendallMeasure { counts, judge })
    }
}

impl ScalarMeasure for KendallMeasure {
    ghost use Rattle.kendall_test.specs.KendallNetwork.{kendall_numbers};
    ghost use Rattle.kendall_test.specs.KendallRooms.{kendall_floor};

    ghost floor = { λ m. kendall_floor m.counts.columns.items m.counts.rows.items };

    ghost numbers = { λ m.
        kendall_numbers m.counts.columns.items m.counts.rows.items m.judge };

    #[inline(always)]
    fn judge(&self) -> &Judge {
        &self.judge
    }

    #[inline(always)]
    fn operation(&self) -> Operation {
        Operation::Sum
    }

    fn number(&self, stage: usize, room: &[i128], choice: &[u64]) -> i128 {
        let mut numbers = [0u64; 120];
        let left = &mut numbers[..self.counts.rows.len()];
        self.counts.read_after(stage, room, choice, left);
        concordance(choice, left)
    }

    fn later(&self, stage: usize, room: &[i128]) -> Interval {
        self.counts.seat(stage, room);
        let open = open_pairs(self.counts.columns.as_slice(), stage);
        Interval {
            low: -open,
            high: open,
        }
    }
}
