// Tables and strata, and what is always true of them.
ghost use Rattle.std.specs.Prelude.{◌≡◌, ◌≤◌, ◌*◌, ◌%◌, length};
ghost use Rattle.record_reader.specs.declared.TheConstants.{MOST_ROWS};
ghost use Rattle.table_reader.specs.Counts.{AreCounts};
ghost use Rattle.table_reader.specs.declared.TheConstants.{MOST_TABLE_COLUMNS, MOST_TABLE_ROWS};

use weights::Nums;

/// A table of counts.
#[derive(Drop)]
pub struct Table {
    /// How many rows there are.
    pub rows: u64,
    /// How many columns there are.
    pub columns: u64,
    /// The counts by rows, in the order of the file.
    pub cells: Nums,
    pub ghost two_rows: { 2 ≤ rows },
    pub ghost few_rows: { rows ≤ MOST_TABLE_ROWS },
    pub ghost two_columns: { 2 ≤ columns },
    pub ghost few_columns: { columns ≤ MOST_TABLE_COLUMNS },
    pub ghost one_each: { length cells ≡ rows * columns },
    pub ghost in_range: { AreCounts cells },
}

/// Strata, each a table of counts of two rows and two columns.
#[derive(Drop)]
pub struct Strata {
    /// The counts, four for each stratum, in the order of the file: those of its first row, and
    /// then those of its second.
    pub cells: Nums,
    pub ghost not_empty: { 4 ≤ length cells },
    pub ghost few_enough: { length cells ≤ 4 * MOST_ROWS },
    pub ghost four_each: { length cells % 4 ≡ 0 },
    pub ghost in_range: { AreCounts cells },
}
