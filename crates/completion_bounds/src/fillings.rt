// The least and the greatest weight of the tables with given margins and columns.
ghost use Rattle.std.specs.Prelude.{◌≡◌, ◌*◌, ◌≤◌, length, min, sum};
ghost use Rattle.weights.specs.Labellings.{number_of_labellings};
ghost use Rattle.weights.specs.Numbers.{binomial};
ghost use Rattle.completion_bounds.specs.Fillings.{falling, filled_in_turn, evenly_divided, least_weight, greatest_weight, product_by, least_bound, greatest_bound, HoldsWeights};

use weights::{MAX, binomial};

/// Two numbers between which `past` times the weight of every table with these row and column sums
/// lies; `rest` is the number of labellings of the row sums. For the lower one each column is put
/// into the greatest rows first, as if it were the only column. For the upper one each column is
/// divided as evenly as can be over the rows; it is no more than `past` times `rest`. The two stand
/// below the shortest and above the longest path of Mehta and Patel's network (A network algorithm
/// for performing Fisher's exact test in r x c contingency tables, JASA 78, 1983).
pub fn weight_bounds(past: u128, rest: u128, margins: &[u64], columns: &[u64]) -> (u128, u128)
    requires few { length margins.now ≤ 8 }
    requires level { sum margins.now ≡ sum columns.now }
    requires rest { rest ≡ number_of_labellings margins.now }
    requires small { past * rest ≤ MAX }
    ensures least { result.0 ≡ least_bound past margins.now columns.now }
    ensures greatest { result.1 ≡ greatest_bound past margins.now columns.now }
    ensures holds { HoldsWeights past margins.now columns.now result.0 result.1 }
{
    if past == 0 || margins.is_empty() {
        return (past, past);
    }
    let mut room = [0; 8];
    let sizes = &mut room[..margins.len()];
    fall(margins, sizes);
    let least = least_product(columns, sizes, rest);
    let greatest = greatest_product(columns, margins.len() as u64, rest);
    (past * least, past * greatest)
}

/// Writes sizes in their order from the greatest on.
pub fn fall(sizes: &[u64], room: &mut [u64])
    requires { length room.old ≡ length sizes.now }
    ensures { room.new ≡ falling sizes.now }
{
    room.copy_from_slice(sizes);
    room.sort_unstable();
    room.reverse();
}

// The product of the columns' least weights, or the cap where that is less.
fn least_product(columns: &[u64], margins: &[u64], cap: u128) -> u128
    requires falls { falling margins.now ≡ margins.now }
    requires level { sum margins.now ≡ sum columns.now }
    requires some { 1 ≤ cap }
    requires small { cap ≤ MAX }
    ensures { result ≡ min (product_by (least_weight margins.now) columns.now) cap }
{
    let mut product = 1;
    for column in columns {
        product = times_filled_in_turn(product, *column, margins, cap);
    }
    product
}

// The product of the columns' greatest weights, or the cap where that is less.
fn greatest_product(columns: &[u64], rows: u64, cap: u128) -> u128
    requires rows { 1 ≤ rows }
    requires some { 1 ≤ cap }
    requires small { cap ≤ MAX }
    ensures { result ≡ min (product_by (greatest_weight rows) columns.now) cap }
{
    let mut product = 1;
    for column in columns {
        product = times_evenly_divided(product, *column, rows, cap);
    }
    product
}

// A product times the weight of the rows filled in turn, or the cap where that is less.
fn times_filled_in_turn(product: u128, units: u64, rows: &[u64], cap: u128) -> u128
    requires room { units ≤ sum rows.now }
    requires some { 1 ≤ product }
    requires most { product ≤ cap }
    requires small { cap ≤ MAX }
    ensures { result ≡ min (product * number_of_labellings (filled_in_turn units rows.now)) cap }
{
    let mut weight = product;
    let mut left = units;
    for row in rows {
        let cell = (*row).min(left);
        weight = times_ways(weight, left, cell, cap);
        left -= cell;
    }
    weight
}

/// A product times the weight of the most even division of some units over rows, or the cap where
/// that is less.
pub fn times_evenly_divided(product: u128, units: u64, rows: u64, cap: u128) -> u128
    requires rows { 1 ≤ rows }
    requires some { 1 ≤ product }
    requires most { product ≤ cap }
    requires small { cap ≤ MAX }
    ensures { result ≡ min (product * number_of_labellings (evenly_divided units rows)) cap }
{
    let few = units / rows;
    let greater = units % rows;
    let mut weight = product;
    let mut left = units;
    for row in 0..rows {
        let cell = if row < greater { few + 1 } else { few };
        weight = times_ways(weight, left, cell, cap);
        left -= cell;
    }
    weight
}

// A product times the ways to choose k of n, or the cap where that is less.
fn times_ways(product: u128, n: u64, k: u64, cap: u128) -> u128
    requires some { 1 ≤ product }
    requires small { cap ≤ MAX }
    ensures { result ≡ min (product * binomial n k) cap }
{
    match binomial(n, k).and_then(|ways| product.checked_mul(ways)) {
        Some(all) => all.min(cap),
        None => cap,
    }
}
