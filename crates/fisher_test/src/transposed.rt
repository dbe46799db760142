// The table transposed.
ghost use Rattle.std.specs.Prelude.{◌≡◌, ◌<◌, ◌≤◌, ◌++◌, IfOk, IfSome, OnOk};
ghost use Rattle.table_reader.specs.declared.TheConstants.{MOST_TABLE_ROWS};
ghost use Rattle.table_reader.specs.Data.{table_data_of};
ghost use Rattle.table_reader.specs.TableLayout.{TableData};
ghost use Rattle.table_sums.specs.Tables.{column_of};
ghost use Rattle.fisher_test.specs.Transposed.{AreInRatio, AreTransposed, IsServedBy, transposed_data};

use crate::fisher_table::FisherTable;
use std::alloc::Global;
use table_reader::Table;
use weights::{NoMemory, Nums, PrepareFault};

/// Fisher's test of a table and of the table transposed. The numerators of the tail on both sides
/// are in the ratio of the totals, and so are the lines of their distributions.
pub fn transposed_tests()
    ensures ratio { (t u : TableData) → AreTransposed t u → AreInRatio t u }
    ensures transposed { (t : TableData) → AreTransposed t (transposed_data t) }
{}

// Adds a column of a table, a count for each row.
fn push_column(cells: &mut Nums, table: &FisherTable, j: usize) -> Result<(), NoMemory>
    requires { j < table.now.columns }
    ensures { OnOk result (cells.new ≡ cells.old ++ column_of table.now j) }
{
    let _made = table.made();
    let columns = table.columns() as usize;
    for i in 0..table.rows() as usize {
        let count = table.cells()[i * columns + j];
        cells.push(count)?;
    }
    Ok(())
}

// The table whose rows are the columns of a table, which are no more than a table may have rows.
fn transposed(alloc: Global, table: &FisherTable) -> Result<Table, NoMemory>
    requires { table.now.columns ≤ MOST_TABLE_ROWS }
    ensures { IfOk result (λ u. table_data_of u ≡ transposed_data table.now) }
{
    let _made = table.made();
    let mut cells = Nums::empty(alloc);
    for j in 0..table.columns() as usize {
        push_column(&mut cells, table, j)?;
    }
    Ok(Table {
        rows: table.columns(),
        columns: table.rows(),
        cells,
    })
}

/// The table transposed, which serves for a table of more rows than columns: it has fewer and
/// smaller networks. None where the table has no more, and where the total of the table transposed
/// is too wide.
pub(crate) fn transposed_of(
    alloc: Global,
    table: &FisherTable,
) -> Result<Option<FisherTable>, NoMemory>
    ensures { IfOk result (λ found. IfSome found (IsServedBy table.now)) }
{
    let _made = table.made();
    if table.rows() <= table.columns() {
        return Ok(None);
    }
    let transposed = transposed(alloc, table)?;
    match FisherTable::prepare(alloc, &transposed) {
        Ok(problem) => Ok(Some(problem)),
        Err(PrepareFault::NoMemory) => Err(NoMemory),
        Err(PrepareFault::TooWide(_)) => Ok(None),
    }
}
