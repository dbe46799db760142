// The public calls of `table_reader`.
ghost use Rattle.std.specs.Prelude.{◌%◌, ◌*◌, ◌≡◌, ◌≤◌, All, IfErr, IfOk, length, List, ℕ, ◌≢◌, AllPairs, true, false};
ghost use Rattle.record_reader.specs.Answers.{IsFaultOf};
ghost use Rattle.table_reader.specs.Data.{table_data_of};
ghost use Rattle.table_reader.specs.Kept.{HasShape};
ghost use Rattle.table_reader.specs.StrataLayout.{strata_in};
ghost use Rattle.table_reader.specs.TableLayout.{table_in, table_shape};

use record_reader::{LayoutFault, Picks, Rows};
use std::alloc::Global;
use table_reader::{Strata, Table};
use weights::Nums;

/// The rows of a table, 2 to 8.
pub fn table_rows(table: &Table) -> u64
    ensures rows { result ≡ table.now.rows }
    ensures two { 2 ≤ result }
    ensures eight { result ≤ 8 }
{
    table.rows
}

/// The columns of a table, 2 to 64.
pub fn table_columns(table: &Table) -> u64
    ensures columns { result ≡ table.now.columns }
    ensures two { 2 ≤ result }
    ensures most { result ≤ 64 }
{
    table.columns
}

/// The cells of a table: one per row and column, each a count.
pub fn table_cells(table: &Table) -> &Nums
    ensures cells { result.now ≡ table.now.cells }
    ensures one_each { length result.now ≡ table.now.rows * table.now.columns }
    ensures counts { All (λ cell. cell ≤ 1000000) result.now }
{
    &table.cells
}

/// The cells of strata: four each of 1 to 10,000 strata, each a count.
pub fn strata_cells(strata: &Strata) -> &Nums
    ensures cells { result.now ≡ strata.now.cells }
    ensures some { 4 ≤ length result.now }
    ensures few { length result.now ≤ 40000 }
    ensures four_each { length result.now % 4 ≡ 0 }
    ensures counts { All (λ cell. cell ≤ 1000000) result.now }
{
    &strata.cells
}

/// A table of a file, or the first fault.
pub fn table(
    alloc: Global,
    rows: &Rows,
    picks: &Picks,
    two_by_two: bool,
) -> Result<Table, LayoutFault>
    requires least { (fields : List ℕ) → picks.now ≡ Picks.Listed fields → 2 ≤ length fields }
    requires most { (fields : List ℕ) → picks.now ≡ Picks.Listed fields → two_by_two ≡ false
        → length fields ≤ 64 }
    requires square { (fields : List ℕ) → picks.now ≡ Picks.Listed fields → two_by_two ≡ true
        → length fields ≤ 2 }
    requires from_one { (fields : List ℕ) → picks.now ≡ Picks.Listed fields
        → All (λ field. 1 ≤ field) fields }
    requires distinct { (fields : List ℕ) → picks.now ≡ Picks.Listed fields
        → AllPairs ◌≢◌ fields }
    ensures ok { IfOk result (λ table.
        table_in two_by_two picks.now rows.now ≡ Ok (table_data_of table)) }
    ensures shape { IfOk result (λ table.
        HasShape (table_shape two_by_two) (table_data_of table)) }
    ensures fault { IfErr result (IsFaultOf (table_in two_by_two picks.now rows.now)) }
{
    table_reader::table(alloc, rows, picks, two_by_two)
}

/// Strata of a file, or the first fault.
pub fn strata(alloc: Global, rows: &Rows, picks: &Picks) -> Result<Strata, LayoutFault>
    requires many { (fields : List ℕ) → picks.now ≡ Picks.Listed fields → length fields ≡ 5 }
    requires from_one { (fields : List ℕ) → picks.now ≡ Picks.Listed fields
        → All (λ field. 1 ≤ field) fields }
    requires distinct { (fields : List ℕ) → picks.now ≡ Picks.Listed fields
        → AllPairs ◌≢◌ fields }
    ensures ok { IfOk result (λ strata. strata_in picks.now rows.now ≡ Ok strata.cells) }
    ensures fault { IfErr result (IsFaultOf (strata_in picks.now rows.now)) }
{
    table_reader::strata(alloc, rows, picks)
}

/// A table, of its three parts.
pub fn table_of(rows: u64, columns: u64, cells: Nums) -> Table
    requires two_rows { 2 ≤ rows }
    requires few_rows { rows ≤ 8 }
    requires two_columns { 2 ≤ columns }
    requires few_columns { columns ≤ 64 }
    requires one_each { length cells ≡ rows * columns }
    requires counts { All (λ cell. cell ≤ 1000000) cells }
    ensures { table_data_of result ≡ record { rows = rows; columns = columns; cells = cells } }
{
    Table {
        rows,
        columns,
        cells,
    }
}

/// Strata, of their cells.
pub fn strata_of(cells: Nums) -> Strata
    requires some { 4 ≤ length cells }
    requires few { length cells ≤ 40000 }
    requires four_each { length cells % 4 ≡ 0 }
    requires counts { All (λ cell. cell ≤ 1000000) cells }
    ensures { result.cells ≡ cells }
{
    Strata { cells }
}
