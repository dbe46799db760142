// Fillings of the later columns, and the products of their weights.
ghost use Rattle.std.specs.Prelude.{◌≡◌, ◌*◌, ◌≤◌, length, IfOk};
ghost use Rattle.std.specs.List.{sum};
ghost use Rattle.weights.specs.declared.TheConstants.{MAX};
ghost use Rattle.weights.specs.Labellings.{number_of_labellings};
ghost use Rattle.completion_bounds.specs.Fillings.{falling, filled_in_turn, least_weight, product_by};
ghost use Rattle.label_network.specs.LabelSteps.{IsHeld};
ghost use Rattle.fisher_test.specs.WeightSteps.{AreHighs, AreRoomy};

use completion_bounds::{fall, times_evenly_divided};
use label_network::Binomials;
use std::alloc::Global;
use weights::{MAX, NoMemory};

// Writes units put into the first row until it is full, then into the next, and so on.
fn fill_in_turn(units: u64, rows: &[u64], cells: &mut [u64])
    requires { length cells.old ≡ length rows.now }
    ensures { cells.new ≡ filled_in_turn units rows.now }
{
    let mut left = units;
    for i in 0..rows.len() {
        let cell = rows[i].min(left);
        cells[i] = cell;
        left -= cell;
    }
}

// The weight of a column that fills rows in turn. One that fits the first row has the weight 1.
fn weight_in_turn(binomials: &Binomials, units: u64, rows: &[u64]) -> u128
    requires rows { AreRoomy binomials.now.width rows.now }
    requires room { units ≤ sum rows.now }
    ensures { result ≡ number_of_labellings (filled_in_turn units rows.now) }
{
    if units <= rows[0] {
        return 1;
    }
    let mut room = [0u64; 8];
    let cells = &mut room[..rows.len()];
    fill_in_turn(units, rows, cells);
    binomials.labellings(cells, units)
}

// The product of the least weights of columns that fill rows, the greatest row first.
fn least_product(binomials: &Binomials, columns: &[u64], rows: &[u64]) -> u128
    requires rows { AreRoomy binomials.now.width rows.now }
    requires falls { falling rows.now ≡ rows.now }
    requires level { sum rows.now ≡ sum columns.now }
    ensures { result ≡ product_by (least_weight rows.now) columns.now }
{
    let mut product: u128 = 1;
    for column in columns {
        product *= weight_in_turn(binomials, *column, rows);
    }
    product
}

/// The product of the least weights of columns over rows of these sizes.
pub(crate) fn least_over(binomials: &Binomials, columns: &[u64], sizes: &[u64]) -> u128
    requires few { length sizes.now ≤ 8 }
    requires rows { AreRoomy binomials.now.width (falling sizes.now) }
    requires level { sum sizes.now ≡ sum columns.now }
    ensures { result ≡ product_by (least_weight sizes.now) columns.now }
{
    let mut room = [0u64; 8];
    let rows = &mut room[..sizes.len()];
    fall(sizes, rows);
    least_product(binomials, columns, rows)
}

/// The products of the greatest weights of the later columns, cut off at the greatest weight, from
/// the last stage back to the first.
pub(crate) fn later_highs(alloc: Global, columns: &[u64], rows: u64) -> Result<Vec<u128>, NoMemory>
    requires { 1 ≤ rows }
    ensures { IfOk result (λ highs. AreHighs rows columns.now 0 highs.items) }
{
    let mut product: u128 = 1;
    let mut highs = Vec::new(alloc);
    highs.push(product)?;
    let mut j = columns.len();
    while j > 0 {
        j -= 1;
        product = times_evenly_divided(product, columns[j], rows, MAX);
        highs.push(product)?;
    }
    Ok(highs)
}
