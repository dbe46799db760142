// The weight of a table over rooms whose sizes stand in falling order.
ghost use Rattle.std.specs.Prelude.{◌≡◌, ◌≤◌, length, pos, IfOk};
ghost use Rattle.std.specs.Int.{int_max, int_min};
ghost use Rattle.weights.specs.declared.TheConstants.{MAX};
ghost use Rattle.completion_bounds.specs.Fillings.{falling};
ghost use Rattle.label_network.specs.Meanings.{sizes_in};
ghost use Rattle.sorted_tables.specs.SortedRooms.{rising};
ghost use Rattle.fisher_test.specs.SortedWeighing.{sharper_high, sharper_low, sorted_meaning};
ghost use Rattle.fisher_test.specs.WeightSteps.{AreOrdered, IsWeighing, IsWeightRoom};

use crate::fisher_table::held;
use crate::weight_measure::{WeightMeasure, later_columns};
use label_network::read_sizes;
use networks::{Interval, Judge};
use room_network::{FromScalar, Operation, RoomNetwork, ScalarMeasure};
use row_products::{RowBounds, RowProducts};
use sorted_tables::SortedRooms;
use std::alloc::Global;
use weights::NoMemory;

/// The weight of the table that a labelling gives, as [`WeightMeasure`], over rooms whose sizes
/// stand in falling order. Neither the weight nor its interval depends on the order of the sizes,
/// and so all choices that one stands for lead to the same. The interval is the narrower one of
/// that of [`WeightMeasure`] and of one by the rows.
#[derive(Drop)]
pub struct SortedWeights {
    measure: WeightMeasure,
    products: RowProducts,
    ghost right: { AreOrdered measure.rows.items measure.columns.items },
}

/// The network of a table's weight with sizes in falling order: a key has the sizes that remain,
/// the greatest first, and then the product of the columns' weights so far.
pub type SortedStages = RoomNetwork<SortedRooms, FromScalar<SortedWeights>>;

/// The network of tables with these rows, the greatest first, and columns (how many subjects each
/// has), the least first, with verdicts by the judge's rules.
pub(crate) fn sorted_stages(
    alloc: Global,
    rows: &[u64],
    columns: &[u64],
    judge: Judge,
) -> Result<SortedStages, NoMemory>
    requires weighing { IsWeighing rows.now columns.now judge }
    requires falls { falling rows.now ≡ rows.now }
    requires rises { rising columns.now ≡ columns.now }
    ensures { let meaning = sorted_meaning rows.now columns.now judge in
        IfOk result (λ s. sorted_meaning s.1.measure.rows.items s.1.measure.columns.items
        s.1.measure.judge ≡ meaning) }
{
    let measure = WeightMeasure::new(alloc, rows, columns, judge)?;
    let products = RowProducts::new(alloc)?;
    let rooms = SortedRooms::new(alloc, columns, rows)?;
    let weights = SortedWeights { measure, products };
    Ok(RoomNetwork::new(rooms, FromScalar::new(weights)))
}

// The narrower interval: of the lower ends the greater, and of the upper ends the lesser.
fn narrower(factors: Interval, by_rows: RowBounds) -> Interval
    requires least { by_rows.least ≤ MAX }
    requires greatest { by_rows.greatest ≤ MAX }
    ensures low { result.low ≡ int_max factors.low (pos by_rows.least) }
    ensures high { result.high ≡ int_min factors.high (pos by_rows.greatest) }
{
    Interval {
        low: factors.low.max(held(by_rows.least)),
        high: factors.high.min(held(by_rows.greatest)),
    }
}

impl SortedWeights {
    // By what the sizes that remain can still multiply a product.
    fn factors(&self, stage: usize, room: &[i128]) -> Interval
        requires { IsWeightRoom self.now.measure.rows.items self.now.measure.columns.items stage
            room.now }
        ensures low { let low = sharper_low self.now.measure.columns.items stage in
            result.low ≡ pos (low (sizes_in room.now)) }
        ensures high { let high = sharper_high self.now.measure.columns.items stage in
            result.high ≡ pos (high (sizes_in room.now)) }
    {
        self.measure.seat(stage, room);
        let factors = self.measure.factors(stage, room);
        let later = later_columns(self.measure.columns(), stage);
        let mut numbers = [0u64; 8];
        let sizes = &mut numbers[..room.len()];
        read_sizes(room, sizes);
        match self.products.bounds(later, sizes) {
            Some(by_rows) => narrower(factors, by_rows),
            None => factors,
        }
    }
}

impl ScalarMeasure for SortedWeights {
    ghost use Rattle.sorted_tables.specs.SortedRooms.{sorted_floor};
    ghost use Rattle.fisher_test.specs.SortedWeighing.{sorted_numbers};

    ghost floor = { λ s. sorted_floor s.measure.columns.items s.measure.rows.items };

    ghost numbers = { λ s. sorted_numbers s.measure.columns.items s.measure.judge };

    #[inline(always)]
    fn judge(&self) -> &Judge {
        self.measure.judge()
    }

    #[inline(always)]
    fn operation(&self) -> Operation {
        Operation::Product
    }

    #[inline(always)]
    fn number(&self, stage: usize, room: &[i128], choice: &[u64]) -> i128 {
        self.measure.weight(stage, room, choice)
    }

    #[inline(always)]
    fn later(&self, stage: usize, room: &[i128]) -> Interval {
        self.factors(stage, room)
    }
}
