// The least and the greatest sum of products of two lists of runs.
ghost use Rattle.std.specs.Prelude.{◌≡◌, ◌+◌, ◌*◌, ◌<◌, ◌≤◌, length, slice_index_or, pos, ◌+ℤ◌, ◌*ℤ◌, unsigned_abs};
ghost use Rattle.completion_bounds.specs.Pairings.{row_units, later_units, paired, IsLeastPairing, IsGreatestPairing, pairing_size, RowsAscend, ColumnsAscend};
ghost use Rattle.completion_bounds.specs.PairingSteps.{turned};

use weights::MAX;

/// A row: its score, and how many units it has.
#[derive(Clone, Copy, Debug, PartialEq, Eq)]
pub struct Part {
    pub score: i128,
    pub count: u64,
}

/// A column: its score, how many units it has, and the stage at which they are placed.
#[derive(Clone, Copy, Debug, PartialEq, Eq)]
pub struct Later {
    pub score: i128,
    pub count: u64,
    pub stage: u64,
}

/// The least sum of products of row score and column score over all pairings of the rows' units
/// with the units of the columns whose stage is at least `from`; other columns are passed over.
/// By the rearrangement inequality (Hardy, Littlewood and Pólya, Inequalities) it is that of the
/// rows ascending beside the columns descending.
pub fn least_linear(rows: &[Part], columns: &[Later], from: u64) -> i128
    requires rows_ascend { RowsAscend rows.now }
    requires columns_ascend { ColumnsAscend columns.now }
    requires level { length (row_units rows.now) ≡ length (later_units from columns.now) }
    requires small { pairing_size (row_units rows.now) (later_units from columns.now) ≤ MAX }
    ensures { IsLeastPairing (row_units rows.now) (later_units from columns.now) result }
{
    pair_runs(rows, columns, from, true)
}

/// The greatest such sum, which is that of both sides ascending.
pub fn greatest_linear(rows: &[Part], columns: &[Later], from: u64) -> i128
    requires rows_ascend { RowsAscend rows.now }
    requires columns_ascend { ColumnsAscend columns.now }
    requires level { length (row_units rows.now) ≡ length (later_units from columns.now) }
    requires small { pairing_size (row_units rows.now) (later_units from columns.now) ≤ MAX }
    ensures { IsGreatestPairing (row_units rows.now) (later_units from columns.now) result }
{
    pair_runs(rows, columns, from, false)
}

// The sum of the products of the units place by place, with a run of each side in hand.
fn pair_runs(rows: &[Part], columns: &[Later], from: u64, downwards: bool) -> i128
    requires level { length (row_units rows.now) ≡ length (later_units from columns.now) }
    requires small { pairing_size (row_units rows.now) (later_units from columns.now) ≤ MAX }
    ensures { let columns_read = later_units from (turned downwards columns.now) in
        result ≡ paired (row_units rows.now) columns_read }
{
    let mut sum: i128 = 0;
    let mut row = Part { score: 0, count: 0 };
    let mut column = Part { score: 0, count: 0 };
    let mut rows_read = 0;
    let mut columns_read = 0;
    while rows_read < rows.len() || row.count > 0 {
        if row.count == 0 {
            row = rows[rows_read];
            rows_read += 1;
        } else if column.count == 0 {
            let next = column_at(columns, columns_read, downwards);
            columns_read += 1;
            if next.stage >= from {
                column = Part {
                    score: next.score,
                    count: next.count,
                };
            }
        } else {
            let pairs = row.count.min(column.count);
            sum = add_pairs(sum, pairs, row.score, column.score);
            row.count -= pairs;
            column.count -= pairs;
        }
    }
    sum
}

// The column at a place, counted from the front or from the back.
fn column_at(columns: &[Later], place: usize, downwards: bool) -> Later
    requires { place < length columns.now }
    ensures { (d : Later) → result ≡ slice_index_or (turned downwards columns.now) place d }
{
    if downwards {
        columns[columns.len() - 1 - place]
    } else {
        columns[place]
    }
}

// Adds the product of two scores as often as there are pairs with them.
fn add_pairs(sum: i128, pairs: u64, row: i128, column: i128) -> i128
    requires some { 1 ≤ pairs }
    requires small { unsigned_abs sum + pairs * (unsigned_abs row * unsigned_abs column) ≤ MAX }
    ensures { result ≡ sum +ℤ (pos pairs *ℤ (row *ℤ column)) }
{
    sum + (pairs as i128) * (row * column)
}
