// The table of a file.
ghost use Rattle.std.specs.Prelude.{◌≡◌, ◌≤◌, Ok, IfErr, IfOk};
ghost use Rattle.record_reader.specs.Answers.{IsFaultOf};
ghost use Rattle.record_reader.specs.Layouts.{MayPick};
ghost use Rattle.table_reader.specs.Data.{table_data_of};
ghost use Rattle.table_reader.specs.Kept.{HasShape};
ghost use Rattle.table_reader.specs.TableLayout.{no_rows, table_in, table_shape, tabled, with_cell};
ghost use Rattle.table_reader.specs.declared.TheConstants.{MOST_COUNT};

use crate::counts::count_in;
use crate::tables::Table;
use crate::{MOST_TABLE_COLUMNS, MOST_TABLE_ROWS};
use record_reader::{FieldFault, Kind, Layout, LayoutFault, Missing, Picks, Rows, Shape, read_in};
use std::alloc::Global;
use std::marker::Model;
use weights::{NoMemory, Nums};

// The rows so far: how many there are, and their counts.
#[derive(Drop)]
struct RowsSoFar {
    rows: u64,
    cells: Nums,
}

impl Model for RowsSoFar {
    ghost use Rattle.std.specs.Prelude.{◌≤◌, length};
    ghost use Rattle.table_reader.specs.Counts.{AreCounts};
    ghost use Rattle.table_reader.specs.TableLayout.{RowCounts};

    ghost Value = { RowCounts };

    ghost view = { λ a. record { rows = a.rows; cells = a.cells } };

    ghost invariant = { λ a. (a.rows ≤ length a.cells) × AreCounts a.cells };
}

impl RowsSoFar {
    fn empty(alloc: Global) -> RowsSoFar
        ensures { result ≡ no_rows }
    {
        RowsSoFar {
            rows: 0,
            cells: Nums::empty(alloc),
        }
    }

    // These with one count more, by its place in its row.
    fn with_count(self, place: usize, count: u64) -> Result<RowsSoFar, NoMemory>
        requires { count ≤ MOST_COUNT }
        ensures { IfOk result (λ more. more ≡ with_cell place self count) }
    {
        let RowsSoFar { rows, mut cells } = self;
        cells.push(count)?;
        let rows = if place == 0 { rows + 1 } else { rows };
        Ok(RowsSoFar { rows, cells })
    }

    // The table of these, where they are all.
    fn into_table(self, two_by_two: bool) -> Table
        requires { HasShape (table_shape two_by_two) (tabled self) }
        ensures { table_data_of result ≡ tabled self }
    {
        Table {
            rows: self.rows,
            columns: self.cells.len() as u64 / self.rows,
            cells: self.cells,
        }
    }
}

// The layout of tables: a count for each column in each row.
#[derive(Clone, Copy)]
struct TableLayout {
    two_by_two: bool,
}

impl Layout<RowsSoFar> for TableLayout {
    ghost use Rattle.table_reader.specs.TableLayout.{table_layout, table_shape};

    ghost meaning = { λ layout. table_layout (table_shape layout.two_by_two) };

    fn shape(&self) -> Shape {
        let (widest, most_rows) = if self.two_by_two {
            (2, 2)
        } else {
            (MOST_TABLE_COLUMNS, MOST_TABLE_ROWS)
        };
        Shape {
            narrowest: 2,
            widest,
            too_wide: Kind::TooManyColumns,
            most_rows,
        }
    }

    fn start(&self, alloc: Global) -> RowsSoFar {
        RowsSoFar::empty(alloc)
    }

    fn with_field(
        &self,
        place: usize,
        text: &[u8],
        so_far: RowsSoFar,
    ) -> Result<RowsSoFar, FieldFault> {
        Ok(so_far.with_count(place, count_in(text)?)?)
    }

    fn is_missing(&self, _place: usize, _text: &[u8]) -> bool {
        false
    }

    fn is_enough(&self, so_far: &RowsSoFar) -> bool {
        so_far.rows >= 2
    }
}

/// The table of a file, in time linear in it: each row of data is a row of the table, with a count
/// for each column.
///
/// A count is one digit or more, with spaces and tabs around them ignored, and at most
/// [`MOST_COUNT`](crate::MOST_COUNT). There are 2 to [`MOST_TABLE_COLUMNS`] columns and 2 to
/// [`MOST_TABLE_ROWS`] rows below the header, or two of each in a 2 by 2 table. The texts of the
/// header are not used. Rows and fields have numbers from 1, so the header is row 1.
///
/// # Errors
/// `Columns` where there is a header and a listed field is not in it. Else `At` with the first
/// fault of the file: `NoHeader` where it has no row, `FieldCount` or `TooManyColumns` where its
/// header has fewer or more fields than such a table has columns and none are listed, and then, row
/// by row, `TooManyRows`, `FieldCount` where the row is not as wide as the header, and `NotCount`
/// at the first of its picked fields, in the order picked, that is not a count. `EndsEarly` at the
/// last row where fewer than two stand below the header. Or else `NoMemory` where memory runs out.
pub fn table(
    alloc: Global,
    rows: &Rows,
    picks: &Picks,
    two_by_two: bool,
) -> Result<Table, LayoutFault>
    requires { let shape = table_shape two_by_two in
        MayPick shape.narrowest shape.widest picks.now }
    ensures ok { IfOk result (λ table.
        table_in two_by_two picks.now rows.now ≡ Ok (table_data_of table)) }
    ensures shape { IfOk result (λ table.
        HasShape (table_shape two_by_two) (table_data_of table)) }
    ensures fault { IfErr result (IsFaultOf (table_in two_by_two picks.now rows.now)) }
{
    let read = read_in(
        alloc,
        &TableLayout { two_by_two },
        Missing::Refuse,
        rows,
        picks,
    )?;
    Ok(read.into_table(two_by_two))
}
