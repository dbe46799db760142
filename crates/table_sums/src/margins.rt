// The sums of a table's rows and of its columns, and its columns.
ghost use Rattle.std.specs.Prelude.{◌≡◌, ℕ, ◌+◌, ◌*◌, ◌<◌, ◌≤◌, length, slice_index, IfOk};
ghost use Rattle.std.specs.List.{range_with_len, sum_by};
ghost use Rattle.table_reader.specs.declared.TheConstants.{MOST_TABLE_COLUMNS};
ghost use Rattle.table_reader.specs.Counts.{AreCounts};
ghost use Rattle.table_reader.specs.Data.{table_data_of};
ghost use Rattle.table_sums.specs.Tables.{column_of, column_sums, row_sums};
ghost use Rattle.table_sums.specs.TableSteps.{AreMargins};

use std::alloc::Global;
use table_reader::Table;
use weights::{NoMemory, Nums};

/// How many subjects each row has, and each column.
#[derive(Drop)]
pub struct Margins {
    /// How many subjects each row has.
    pub rows: Nums,
    /// How many subjects each column has.
    pub columns: Nums,
}

// The sum of some cells, from one on and each a step after the one before.
fn line_sum(cells: &[u64], from: usize, step: usize, count: usize) -> u64
    requires inside { (k : ℕ) → k < count → from + k * step < length cells.now }
    requires counts { AreCounts cells.now }
    requires few { count ≤ MOST_TABLE_COLUMNS }
    ensures { let term = λ (k : ℕ). slice_index cells.now (from + k * step) in
        result ≡ sum_by term (range_with_len 0 count) }
{
    let mut sum: u64 = 0;
    for k in 0..count {
        sum += cells[from + k * step];
    }
    sum
}

// The sums of the rows.
fn row_sums(alloc: Global, table: &Table) -> Result<Nums, NoMemory>
    ensures { IfOk result (λ sums. sums ≡ row_sums (table_data_of table.now)) }
{
    let columns = table.columns as usize;
    let mut sums = Nums::empty(alloc);
    for i in 0..table.rows as usize {
        sums.push(line_sum(table.cells.as_slice(), i * columns, 1, columns))?;
    }
    Ok(sums)
}

// The sums of the columns.
fn column_sums(alloc: Global, table: &Table) -> Result<Nums, NoMemory>
    ensures { IfOk result (λ sums. sums ≡ column_sums (table_data_of table.now)) }
{
    let columns = table.columns as usize;
    let rows = table.rows as usize;
    let mut sums = Nums::empty(alloc);
    for j in 0..columns {
        sums.push(line_sum(table.cells.as_slice(), j, columns, rows))?;
    }
    Ok(sums)
}

/// The sums of a table's rows and of its columns.
///
/// # Errors
/// `NoMemory` where memory runs out.
pub fn margins_of(alloc: Global, table: &Table) -> Result<Margins, NoMemory>
    ensures { IfOk result (AreMargins (table_data_of table.now)) }
{
    Ok(Margins {
        rows: row_sums(alloc, table)?,
        columns: column_sums(alloc, table)?,
    })
}

/// Writes a column of a table, a count for each row.
pub(crate) fn read_column(table: &Table, j: usize, column: &mut [u64])
    requires inside { j < table.now.columns }
    requires room { length column.old ≡ table.now.rows }
    ensures { column.new ≡ column_of (table_data_of table.now) j }
{
    let columns = table.columns as usize;
    let cells = table.cells.as_slice();
    for i in 0..column.len() {
        column[i] = cells[i * columns + j];
    }
}
