// Products of factorials, row by row, and what they say of a table's weight.
ghost use Rattle.std.specs.Prelude.{◌≡◌, ◌+◌, ◌*◌, ◌≤◌, min, sum, SomeIff, IfSome};
ghost use Rattle.weights.specs.declared.TheConstants.{MAX};
ghost use Rattle.completion_bounds.specs.Fillings.{product_by, HoldsWeights};
ghost use Rattle.row_products.specs.RowProducts.{IsRising, bounds_by_rows};
ghost use Rattle.row_products.specs.RowProducts.{factorial, greatest_product, least_product};
ghost use Rattle.row_products.specs.Factorials.{AreFactorials, cut};

use std::alloc::Global;
use weights::{MAX, NoMemory};

// Products are cut off above the greatest weight.
const OVER: u128 = MAX + 1;

// How many factorials are held: the last one is cut off.
const HELD: u64 = 35;

/// Two numbers between which the weight of a table lies.
#[derive(Clone, Copy, Debug, PartialEq, Eq)]
pub struct RowBounds {
    /// The lower one.
    pub least: u128,
    /// The upper one.
    pub greatest: u128,
}

/// Products of the factorials of cells.
#[derive(Drop)]
pub struct RowProducts {
    // The factorials of 0, 1, .., each cut off.
    factorials: Vec<u128>,
    ghost right: { AreFactorials 35 factorials.items },
}

// A product, cut off.
fn cut_times(a: u128, b: u128) -> u128
    ensures { result ≡ cut (a * b) }
{
    match a.checked_mul(b) {
        Some(product) => product.min(OVER),
        None => OVER,
    }
}

impl RowProducts {
    /// Makes the factorials.
    pub fn new(alloc: Global) -> Result<RowProducts, NoMemory> {
        let mut factorials = Vec::new(alloc);
        let mut product: u128 = 1;
        for n in 0..HELD {
            factorials.push(product)?;
            product = cut_times(product, n as u128 + 1);
        }
        Ok(RowProducts { factorials })
    }

    // A factorial, cut off.
    fn factorial(&self, n: u64) -> u128
        ensures { result ≡ cut (factorial n) }
    {
        if n < HELD {
            self.factorials[n as usize]
        } else {
            OVER
        }
    }

    // The product of the factorials of some sizes, cut off.
    fn of_all(&self, sizes: &[u64]) -> u128
        ensures { result ≡ cut (product_by factorial sizes.now) }
    {
        let mut product: u128 = 1;
        for size in sizes {
            product = cut_times(product, self.factorial(*size));
        }
        product
    }

    // That of the cells of a row that fills the greatest columns first, cut off.
    fn greatest_product(&self, columns: &[u64], row: u64) -> u128
        requires { IsRising columns.now }
        ensures { result ≡ cut (greatest_product columns.now row) }
    {
        let mut product: u128 = 1;
        let mut left = row;
        for i in 0..columns.len() {
            let cell = columns[columns.len() - 1 - i].min(left);
            product = cut_times(product, self.factorial(cell));
            left -= cell;
        }
        product
    }

    // That of the cells of a row that is divided evenly over so many columns, cut off.
    fn least_product(&self, columns: u64, row: u64) -> u128
        requires { 1 ≤ columns }
        ensures { result ≡ cut (least_product columns row) }
    {
        let few = row / columns;
        let greater = row % columns;
        let mut product: u128 = 1;
        for column in 0..columns {
            let cell = if column < greater { few + 1 } else { few };
            product = cut_times(product, self.factorial(cell));
        }
        product
    }

    // The greatest products of the rows multiplied, cut off.
    fn greatest_over(&self, columns: &[u64], rows: &[u64]) -> u128
        requires { IsRising columns.now }
        ensures { result ≡ cut (product_by (greatest_product columns.now) rows.now) }
    {
        let mut product: u128 = 1;
        for row in rows {
            product = cut_times(product, self.greatest_product(columns, *row));
        }
        product
    }

    // The least products of the rows multiplied, cut off.
    fn least_over(&self, columns: u64, rows: &[u64]) -> u128
        requires { 1 ≤ columns }
        ensures { result ≡ cut (product_by (least_product columns) rows.now) }
    {
        let mut product: u128 = 1;
        for row in rows {
            product = cut_times(product, self.least_product(columns, *row));
        }
        product
    }

    /// Two numbers between which the weight of every table with these row and column sums lies, the
    /// columns with the least first. The weight is the product of the columns' factorials over that
    /// of the cells' factorials. The product of a row's cells is greatest where the row fills the
    /// greatest columns first, and least where it is divided evenly over the columns; so each row
    /// is taken as if it were the only one. None exactly where the product of the columns'
    /// factorials passes [`MAX`].
    pub fn bounds(&self, columns: &[u64], rows: &[u64]) -> Option<RowBounds>
        requires rises { IsRising columns.now }
        requires level { sum rows.now ≡ sum columns.now }
        ensures bounds { SomeIff result (product_by factorial columns.now ≤ MAX)
            (bounds_by_rows rows.now columns.now) }
        ensures holds { IfSome result (λ b.
            HoldsWeights 1 rows.now columns.now b.least b.greatest) }
    {
        if columns.is_empty() {
            return Some(RowBounds {
                least: 1,
                greatest: 1,
            });
        }
        let whole = self.of_all(columns);
        if whole > MAX {
            return None;
        }
        Some(RowBounds {
            least: whole.div_ceil(self.greatest_over(columns, rows)),
            greatest: whole / self.least_over(columns.len() as u64, rows),
        })
    }
}
