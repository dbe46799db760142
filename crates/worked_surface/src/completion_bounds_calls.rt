// The public calls of `completion_bounds`.
ghost use Rattle.std.specs.Prelude.{◌*◌, ◌<◌, ◌≡◌, ◌≤ℤ◌, ◌≤◌, length, min, pos, slice_index_or, sum, ℕ};
ghost use Rattle.completion_bounds.specs.Boxes.{greatest_squares, least_squares, HoldsSquares};
ghost use Rattle.completion_bounds.specs.Fillings.{HoldsWeights, greatest_bound, least_bound};
ghost use Rattle.completion_bounds.specs.Pairings.{ColumnsAscend, IsGreatestPairing, IsLeastPairing, RowsAscend, later_units, pairing_size, row_units};
ghost use Rattle.weights.specs.Labellings.{number_of_labellings};
ghost use Rattle.weights.specs.declared.TheConstants.{MAX};

use completion_bounds::{Later, Part};

/// A row of a pairing, of its two parts.
pub fn part(score: i128, count: u64) -> Part
    ensures { result ≡ record { score = score; count = count } }
{
    Part { score, count }
}

/// A column of a pairing, of its three parts.
pub fn later(score: i128, count: u64, stage: u64) -> Later
    ensures { result ≡ record { score = score; count = count; stage = stage } }
{
    Later {
        score,
        count,
        stage,
    }
}

/// The least sum of products over all pairings.
pub fn least_linear(rows: &[Part], columns: &[Later], from: u64) -> i128
    requires rows_ascend { RowsAscend rows.now }
    requires columns_ascend { ColumnsAscend columns.now }
    requires level { length (row_units rows.now) ≡ length (later_units from columns.now) }
    requires small { pairing_size (row_units rows.now) (later_units from columns.now) ≤ MAX }
    ensures { IsLeastPairing (row_units rows.now) (later_units from columns.now) result }
{
    completion_bounds::least_linear(rows, columns, from)
}

/// The greatest sum of products over all pairings.
pub fn greatest_linear(rows: &[Part], columns: &[Later], from: u64) -> i128
    requires rows_ascend { RowsAscend rows.now }
    requires columns_ascend { ColumnsAscend columns.now }
    requires level { length (row_units rows.now) ≡ length (later_units from columns.now) }
    requires small { pairing_size (row_units rows.now) (later_units from columns.now) ≤ MAX }
    ensures { IsGreatestPairing (row_units rows.now) (later_units from columns.now) result }
{
    completion_bounds::greatest_linear(rows, columns, from)
}

/// The bounds of sums of squares in a box.
pub fn box_bounds(low: &[i128], high: &[i128], factors: &[u128], cap: u128) -> (u128, u128)
    requires few { length low.now ≤ 8 }
    requires highs { length high.now ≡ length low.now }
    requires factors { length factors.now ≡ length low.now }
    requires ordered { (i : ℕ) → i < length low.now
        → slice_index_or low.now i (pos 0) ≤ℤ slice_index_or high.now i (pos 0) }
    requires most { cap ≤ MAX }
    requires capped { least_squares low.now high.now factors.now ≤ cap }
    ensures least { result.0 ≡ least_squares low.now high.now factors.now }
    ensures greatest { result.1 ≡ min (greatest_squares low.now high.now factors.now) cap }
    ensures holds { HoldsSquares low.now high.now factors.now cap result.0 result.1 }
{
    completion_bounds::box_bounds(low, high, factors, cap)
}

/// The bounds of the weights of tables.
pub fn weight_bounds(past: u128, rest: u128, margins: &[u64], columns: &[u64]) -> (u128, u128)
    requires few { length margins.now ≤ 8 }
    requires level { sum margins.now ≡ sum columns.now }
    requires rest { rest ≡ number_of_labellings margins.now }
    requires small { past * rest ≤ MAX }
    ensures least { result.0 ≡ least_bound past margins.now columns.now }
    ensures greatest { result.1 ≡ greatest_bound past margins.now columns.now }
    ensures holds { HoldsWeights past margins.now columns.now result.0 result.1 }
{
    completion_bounds::weight_bounds(past, rest, margins, columns)
}
