// Two values of each subject that are prepared for Kendall's test.
ghost use Rattle.std.specs.Prelude.{◌≡◌, IfOk};
ghost use Rattle.weights.specs.Wide.{Prepares};
ghost use Rattle.sample_reader.specs.Data.{twin_data_of};
ghost use Rattle.kendall_test.specs.Kendall.{kendall_test};

use crate::by_transposing::quick_sums;
use crate::kendall_made::kendall_subjects;
use crate::kendall_measure::KendallMeasure;
use crate::kendall_rooms::KendallRooms;
use crate::kendall_stages::KendallStages;
use crate::kendall_sums::kendall_sum;
use crate::pair_order::PairOrder;
use labelled::{LabelStatistic, Labelled};
use networks::{Judge, TailSums};
use pooled_columns::labels_in;
use room_network::{FromScalar, RoomNetwork};
use sample_reader::Twins;
use std::alloc::Global;
use weights::{NoMemory, PrepareFault, Tail, Tails};

/// A test of Kendall's K whose data are checked.
pub type Kendall = Labelled<PairOrder>;

// The same values in memory of their own.
fn copy_of(twins: &Twins) -> Result<Twins, NoMemory>
    ensures { IfOk result (λ copy. twin_data_of copy ≡ twin_data_of twins.now) }
{
    Ok(Twins {
        rows: twins.rows,
        first: twins.first.copy()?,
        second: twins.second.copy()?,
    })
}

/// Prepares Kendall's test of two values of each subject.
///
/// # Errors
/// `TooWide(Total)` where there are more labellings than `weights::MAX`, or else `NoMemory` where
/// memory runs out. The statistic of at most 120 subjects is never too wide.
pub fn prepare(alloc: Global, twins: &Twins) -> Result<Kendall, PrepareFault>
    ensures { Prepares kendall_test (twin_data_of twins.now) result }
{
    let subjects = kendall_subjects(alloc, twins)?;
    let order = PairOrder::of(alloc, copy_of(twins)?, &subjects)?;
    let observed = labels_in(alloc, &subjects)?;
    let total = order.made().total;
    Ok(Labelled::new(order, observed.as_slice(), 1, 1, 0, total))
}

impl LabelStatistic for PairOrder {
    ghost use Rattle.kendall_test.specs.Kendall.{kendall_says};
    ghost use Rattle.kendall_test.specs.KendallNetwork.{kendall_stages};

    type Built = KendallStages;

    ghost says = { kendall_says };

    ghost network = { kendall_stages };

    ghost running = { kendall_stages };

    fn sound(&self) {
        let _made = self.made();
    }

    fn sizes(&self) -> &[u64] {
        self.made().rows.as_slice()
    }

    fn value(&self, labels: &[u8]) -> i128 {
        kendall_sum(self.made().firsts.as_slice(), labels)
    }

    fn has_tail(&self, _tail: Tail) -> bool {
        true
    }

    fn stages_of(&self, alloc: Global, judge: Judge) -> Result<Self::Built, NoMemory> {
        let made = self.made();
        let columns = made.columns.as_slice();
        let rows = made.rows.as_slice();
        let rooms = KendallRooms::new(alloc, columns, rows)?;
        let measure = KendallMeasure::new(alloc, columns, rows, judge)?;
        let network = RoomNetwork::new(rooms, FromScalar::new(measure));
        Ok(KendallStages { network })
    }

    // By the test transposed, where that is less work.
    fn numerators(&self, alloc: Global, judge: Judge, tails: Tails) -> Result<TailSums, NoMemory> {
        quick_sums(alloc, self, judge, tails)
    }
}
