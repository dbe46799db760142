// The blocks of a file.
ghost use Rattle.std.specs.Prelude.{◌≡◌, ◌^◌, ◌<◌, ◌-◌, [], ◌∷◌, ◌++◌, Ok, All, IfErr, IfOk, nat_abs};
ghost use Rattle.record_reader.specs.Answers.{IsFaultOf};
ghost use Rattle.sample_reader.specs.CellLayouts.{binary_blocks_in, blocks_in, cells_in, width_in};
ghost use Rattle.sample_reader.specs.Cells.{cell_in};
ghost use Rattle.sample_reader.specs.Data.{block_data_of};
ghost use Rattle.sample_reader.specs.Kept.{AreWholeBlocks};
ghost use Rattle.record_reader.specs.Layouts.{MayPick};
ghost use Rattle.sample_reader.specs.Values.{IsBinary};

use crate::fields::{binary_in, is_missing_value, value_in};
use crate::samples::Blocks;
use record_reader::{
    FieldFault, Kind, Layout, LayoutFault, MOST_ROWS, Missing, Picks, Rows, Shape, dropped, read_in,
};
use std::alloc::Global;
use std::marker::Model;
use weights::{Ints, NoMemory};

// The cells so far, by blocks.
#[derive(Drop)]
pub(crate) struct CellsSoFar {
    cells: Ints,
}

impl Model for CellsSoFar {
    ghost use Rattle.std.specs.Prelude.{List, ℤ};
    ghost use Rattle.sample_reader.specs.Kept.{AreInRange};

    ghost Value = { List ℤ };

    ghost view = { λ a. a.cells };

    ghost invariant = { λ a. AreInRange a.cells };
}

impl CellsSoFar {
    fn empty(alloc: Global) -> CellsSoFar
        ensures { result ≡ [] }
    {
        CellsSoFar {
            cells: Ints::empty(alloc),
        }
    }

    // These with one cell more.
    fn with_cell(self, cell: i128) -> Result<CellsSoFar, NoMemory>
        requires { nat_abs cell < 10 ^ 36 }
        ensures { IfOk result (λ more. more ≡ self ++ cell ∷ []) }
    {
        let CellsSoFar { mut cells } = self;
        cells.push(cell)?;
        Ok(CellsSoFar { cells })
    }

    // The blocks of these, where they are all, and there are so many blocks and treatments.
    fn into_blocks(self, blocks: u64, treatments: u64) -> Blocks
        requires { AreWholeBlocks blocks treatments self }
        ensures { block_data_of result
            ≡ record { blocks = blocks; treatments = treatments; cells = self } }
    {
        Blocks {
            blocks,
            treatments,
            cells: self.cells,
        }
    }
}

// What the cells of blocks are.
#[derive(Clone, Copy)]
pub(crate) enum Cell {
    Value,
    Binary,
}

impl Cell {
    // The cell of a field.
    fn read(self, text: &[u8]) -> Result<i128, Kind>
        ensures cell { result ≡ cell_in self text.now }
        ensures in_range { IfOk result (λ cell. nat_abs cell < 10 ^ 36) }
    {
        match self {
            Cell::Value => value_in(text),
            Cell::Binary => binary_in(text),
        }
    }
}

// The layout of blocks: a cell for each treatment in each row.
#[derive(Clone, Copy)]
pub(crate) struct BlockLayout {
    pub(crate) cell: Cell,
}

impl Layout<CellsSoFar> for BlockLayout {
    ghost use Rattle.sample_reader.specs.CellLayouts.{block_layout};
    ghost use Rattle.sample_reader.specs.Cells.{cell_in};

    ghost meaning = { λ layout. block_layout (cell_in layout.cell) };

    fn shape(&self) -> Shape {
        Shape {
            narrowest: 2,
            widest: 8,
            too_wide: Kind::TooManyColumns,
            most_rows: MOST_ROWS,
        }
    }

    fn start(&self, alloc: Global) -> CellsSoFar {
        CellsSoFar::empty(alloc)
    }

    fn with_field(
        &self,
        _place: usize,
        text: &[u8],
        so_far: CellsSoFar,
    ) -> Result<CellsSoFar, FieldFault> {
        Ok(so_far.with_cell(self.cell.read(text)?)?)
    }

    fn is_missing(&self, _place: usize, text: &[u8]) -> bool {
        is_missing_value(text)
    }

    fn is_enough(&self, so_far: &CellsSoFar) -> bool {
        so_far.cells.len() > 0
    }
}

// How many fields are picked of each row of a file.
fn width_in(picks: &Picks, rows: &Rows) -> usize
    ensures { result ≡ width_in picks.now rows.now }
{
    match picks {
        Picks::Listed(fields) => fields.len(),
        Picks::Natural => { if rows.len() == 0 { 0 } else { rows.width(0) } }
    }
}

// The blocks of a file whose cells are these.
fn blocks_of(
    alloc: Global,
    cell: Cell,
    rows: &Rows,
    picks: &Picks,
    missing: Missing,
) -> Result<Blocks, LayoutFault>
    requires { MayPick 2 8 picks.now }
    ensures ok { IfOk result (λ blocks. cells_in (cell_in cell) missing picks.now rows.now
        ≡ Ok (block_data_of blocks)) }
    ensures fault { IfErr result (IsFaultOf (cells_in (cell_in cell) missing picks.now rows.now)) }
{
    let layout = BlockLayout { cell };
    let cells = read_in(alloc, &layout, missing, rows, picks)?;
    let blocks = rows.len() as u64 - 1 - dropped(&layout, missing, rows, picks);
    Ok(cells.into_blocks(blocks, width_in(picks, rows) as u64))
}

/// The blocks of a file, in time linear in it: each row of data is a block, with a value for each
/// treatment.
///
/// A value is a number text, with spaces and tabs around it ignored. There are 2 to 8 treatments,
/// and 1 to [`MOST_ROWS`] rows below the header, whose texts are not used. Rows and fields have
/// numbers from 1, so the header is row 1.
///
/// Where rows with a missing value are dropped, a row below the header that is not one too many, is
/// as wide as the header, and of which a picked value is empty or `NA`, is no block, and none of
/// its faults counts.
///
/// # Errors
/// `Columns` where there is a header and a listed field is not in it. Else `At` with the first
/// fault of the file: `NoHeader` where it has no row, `FieldCount` or `TooManyColumns` where its
/// header has fewer than two fields or more than eight and none are listed, and then, row by row,
/// `TooManyRows`, `FieldCount` where the row is not as wide as the header, and the faults of its
/// picked fields in the order picked: `Missing`, `NotNumber`, `OutOfRange`. `EndsEarly` at the last
/// row where no row below the header is left. Or else `NoMemory` where memory runs out.
pub fn blocks(
    alloc: Global,
    rows: &Rows,
    picks: &Picks,
    missing: Missing,
) -> Result<Blocks, LayoutFault>
    requires { MayPick 2 8 picks.now }
    ensures ok { IfOk result (λ blocks.
        blocks_in missing picks.now rows.now ≡ Ok (block_data_of blocks)) }
    ensures fault { IfErr result (IsFaultOf (blocks_in missing picks.now rows.now)) }
{
    blocks_of(alloc, Cell::Value, rows, picks, missing)
}

/// The blocks of a file whose cells are `0` or `1`, as [`blocks`] reads those of values. Spaces and
/// tabs around a cell are ignored.
///
/// # Errors
/// As those of [`blocks`], but the faults of a field are `Missing`, where it is empty or `NA`, and
/// `NotBinary`.
pub fn binary_blocks(
    alloc: Global,
    rows: &Rows,
    picks: &Picks,
    missing: Missing,
) -> Result<Blocks, LayoutFault>
    requires { MayPick 2 8 picks.now }
    ensures ok { IfOk result (λ blocks.
        binary_blocks_in missing picks.now rows.now ≡ Ok (block_data_of blocks)) }
    ensures binary { IfOk result (λ blocks. All IsBinary blocks.cells) }
    ensures fault { IfErr result (IsFaultOf (binary_blocks_in missing picks.now rows.now)) }
{
    blocks_of(alloc, Cell::Binary, rows, picks, missing)
}
