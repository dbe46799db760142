// The weight of a table as a measure of its labellings.
ghost use Rattle.std.specs.Prelude.{◌≡◌, ◌-◌, ◌^◌, ◌<◌, ◌≤◌, length, drop, get_or, min, pos, IfOk};
ghost use Rattle.std.specs.List.{sum};
ghost use Rattle.weights.specs.declared.TheConstants.{MAX};
ghost use Rattle.weights.specs.Labellings.{number_of_labellings};
ghost use Rattle.completion_bounds.specs.Fillings.{falling, least_weight, product_by};
ghost use Rattle.label_network.specs.LabelSteps.{AreSizes, IsHeld};
ghost use Rattle.label_network.specs.Meanings.{sizes_in};
ghost use Rattle.fisher_test.specs.Weighing.{greatest_factor, least_factor, weight_meaning};
ghost use Rattle.fisher_test.specs.WeightSteps.{AreRoomy, IsWeighing, IsWeightMeasure};
ghost use Rattle.fisher_test.specs.WeightSteps.{IsWeightRoom, IsWeightStep, WeightSeat};

use crate::fillings::{later_highs, least_over};
use crate::fisher_table::held;
use completion_bounds::fall;
use label_network::{Binomials, LabelNetwork, read_sizes};
use networks::{Interval, Judge};
use room_network::{FromScalar, Operation, ScalarMeasure};
use std::alloc::Global;
use weights::{NoMemory, total_of};

/// The weight of the table that a labelling gives: the product over the columns of the numbers of
/// labellings of their cells, which is how many labellings give the table (Freeman and Halton,
/// Biometrika 38, 1951).
///
/// The later columns multiply it by their least and greatest weights, each as if it were the only
/// one (Mehta and Patel, JASA 78, 1983). These are found once for the sizes that remain.
#[derive(Drop)]
pub struct WeightMeasure {
    rows: Vec<u64>,
    columns: Vec<u64>,
    binomials: Binomials,
    // Those of the rows with the greatest first.
    falling_binomials: Binomials,
    // The products of the greatest weights of the later columns, the last stage first.
    highs: Vec<u128>,
    judge: Judge,
    ghost right: { IsWeightMeasure rows.items columns.items binomials.width falling_binomials.width
        highs.items judge },
}

/// The network of a table's weight: a key has the sizes that remain, and then the product of the
/// columns' weights so far.
pub type WeightStages = LabelNetwork<FromScalar<WeightMeasure>>;

/// The columns from a stage on.
pub(crate) fn later_columns(columns: &[u64], stage: usize) -> &[u64]
    requires { stage ≤ length columns.now }
    ensures { result.now ≡ drop stage columns.now }
{
    &columns[stage..]
}

// The product of the greatest weights behind a stage, of so many stages.
fn high_behind(highs: &[u128], stages: usize, stage: usize) -> u128
    requires within { stage ≤ stages }
    requires long { stages - stage < length highs.now }
    ensures { result ≡ get_or highs.now (stages - stage) 0 }
{
    highs[stages - stage]
}

// By what the sizes that remain can still multiply a product: at least by the least weights of the
// later columns, and at most by `high` or by all labellings.
fn factors_of(
    binomials: &Binomials,
    falling_binomials: &Binomials,
    later: &[u64],
    high: u128,
    remaining: &[i128],
) -> Interval
    requires few { length remaining.now ≤ 8 }
    requires sizes { AreSizes remaining.now }
    requires small { sum (sizes_in remaining.now) < 2 ^ 64 }
    requires held { IsHeld binomials.now.width (sizes_in remaining.now) }
    requires fits { number_of_labellings (sizes_in remaining.now) ≤ MAX }
    requires rows { AreRoomy falling_binomials.now.width (falling (sizes_in remaining.now)) }
    requires level { sum (sizes_in remaining.now) ≡ sum later.now }
    requires least { product_by (least_weight (sizes_in remaining.now)) later.now ≤ MAX }
    ensures low { result.low
        ≡ pos (product_by (least_weight (sizes_in remaining.now)) later.now) }
    ensures high { result.high ≡ pos (min (number_of_labellings (sizes_in remaining.now)) high) }
{
    let mut numbers = [0u64; 8];
    let sizes = &mut numbers[..remaining.len()];
    read_sizes(remaining, sizes);
    let rest = binomials.labellings(sizes, total_of(sizes));
    Interval {
        low: held(least_over(falling_binomials, later, sizes)),
        high: held(rest.min(high)),
    }
}

impl WeightMeasure {
    /// The measure of tables with these rows and columns (how many subjects each has), with
    /// verdicts by the judge's rules.
    pub fn new(
        alloc: Global,
        rows: &[u64],
        columns: &[u64],
        judge: Judge,
    ) -> Result<WeightMeasure, NoMemory>
        requires { IsWeighing rows.now columns.now judge }
        ensures { IfOk result (λ m.
            weight_meaning m.rows.items m.columns.items m.judge
            ≡ weight_meaning rows.now columns.now judge) }
    {
        let binomials = Binomials::for_rows(alloc, rows)?;
        let mut room = [0u64; 8];
        let falling = &mut room[..rows.len()];
        fall(rows, falling);
        let falling_binomials = Binomials::for_rows(alloc, falling)?;
        let highs = later_highs(alloc, columns, rows.len() as u64)?;
        let own_rows = Vec::from_slice(alloc, rows)?;
        let own_columns = Vec::from_slice(alloc, columns)?;
        Ok(WeightMeasure {
            rows: own_rows,
            columns: own_columns,
            binomials,
            falling_binomials,
            highs,
            judge,
        })
    }

    /// Its columns.
    pub(crate) fn columns(&self) -> &[u64]
        ensures { result.now ≡ self.now.columns.items }
    {
        self.columns.as_slice()
    }

    /// The weight of a column's choice.
    #[inline(always)]
    pub(crate) fn weight(&self, stage: usize, remaining: &[i128], choice: &[u64]) -> i128
        requires { IsWeightStep self.now.rows.items self.now.columns.items stage remaining.now
            choice.now }
        ensures { result ≡ pos (number_of_labellings choice.now) }
    {
        let _rows = remaining.len();
        held(self.binomials.labellings(choice, self.columns[stage]))
    }

    /// By what the sizes that remain can still multiply a product.
    pub(crate) fn factors(&self, stage: usize, remaining: &[i128]) -> Interval
        requires { IsWeightRoom self.now.rows.items self.now.columns.items stage remaining.now }
        ensures low { let low = least_factor self.now.columns.items stage in
            result.low ≡ pos (low (sizes_in remaining.now)) }
        ensures high { let high = greatest_factor self.now.columns.items stage in
            result.high ≡ pos (high (sizes_in remaining.now)) }
    {
        self.seat(stage, remaining);
        let columns = self.columns();
        let high = high_behind(self.highs.as_slice(), columns.len(), stage);
        factors_of(
            &self.binomials,
            &self.falling_binomials,
            later_columns(columns, stage),
            high,
            remaining,
        )
    }

    /// What is known of the sizes of a key. It does nothing.
    #[inline(always)]
    pub(crate) fn seat(&self, _stage: usize, _remaining: &[i128])
        requires { IsWeightRoom self.now.rows.items self.now.columns.items _stage _remaining.now }
        ensures { WeightSeat self.now.rows.items self.now.columns.items self.now.binomials.width
            self.now.falling_binomials.width self.now.highs.items _stage _remaining.now }
    {}
}

impl ScalarMeasure for WeightMeasure {
    ghost use Rattle.label_network.specs.LabelNetwork.{over_sizes};
    ghost use Rattle.label_network.specs.LabelRooms.{label_floor};
    ghost use Rattle.fisher_test.specs.Weighing.{weight_numbers};

    ghost floor = { λ m. label_floor m.columns.items m.rows.items };

    ghost numbers = { λ m. over_sizes (weight_numbers m.columns.items m.judge) };

    #[inline(always)]
    fn judge(&self) -> &Judge {
        &self.judge
    }

    #[inline(always)]
    fn operation(&self) -> Operation {
        Operation::Product
    }

    #[inline(always)]
    fn number(&self, stage: usize, room: &[i128], choice: &[u64]) -> i128 {
        self.weight(stage, room, choice)
    }

    #[inline(always)]
    fn later(&self, stage: usize, room: &[i128]) -> Interval {
        self.factors(stage, room)
    }
}
