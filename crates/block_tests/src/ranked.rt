// The cells of the blocks of a file: doubled midranks within each, or zeros and ones.
ghost use Rattle.std.specs.Prelude.{◌≡◌, [], ◌*◌, ◌<◌, ◌≤◌, length, map, nat_abs, IfOk, OnOk, ◌++◌, ◌∷◌};
ghost use Rattle.std.specs.List.{All, concat};
ghost use Rattle.sample_reader.specs.Values.{IsBinary};
ghost use Rattle.block_tests.specs.BlockTests.{TakesCells, cells_below, cells_in, cell_counts, cut};

use crate::block::Block;
use crate::kinds::BlockKind;
use midranks::doubled;
use std::alloc::Global;
use weights::{Bytes, NoMemory, Nums};

/// The blocks of a file, and their cells as they are.
#[derive(Drop)]
pub(crate) struct Ranked {
    pub blocks: Vec<Block>,
    pub cells: Bytes,
}

fn zero_or_one(value: i128) -> u64
    requires { IsBinary value }
    ensures is { result ≡ nat_abs value }
    ensures below { result < 2 }
{
    if value == 1 { 1 } else { 0 }
}

// Zeros and ones as they are.
fn binary_cells(alloc: Global, values: &[i128]) -> Result<Nums, NoMemory>
    requires { All IsBinary values.now }
    ensures cells { IfOk result (λ cells. cells ≡ map nat_abs values.now) }
    ensures below { IfOk result (λ cells. All (λ cell. cell < 2) cells) }
{
    let mut cells = Nums::empty(alloc);
    for value in values {
        cells.push(zero_or_one(*value))?;
    }
    Ok(cells)
}

fn doubled_ranks(alloc: Global, values: &[i128]) -> Result<Nums, NoMemory>
    requires { length values.now ≤ 8 }
    ensures cells { IfOk result (λ cells. cells ≡ cells_in BlockKind.Friedman values.now) }
    ensures below { let below = cells_below BlockKind.Friedman (length values.now) in
        IfOk result (λ cells. All (λ cell. cell < below) cells) }
{
    let ranks = doubled(alloc, values)?;
    Ok(ranks)
}

// The cells of a block.
fn cells_in(alloc: Global, kind: BlockKind, values: &[i128]) -> Result<Nums, NoMemory>
    requires few { length values.now ≤ 8 }
    requires taken { TakesCells kind values.now }
    ensures cells { IfOk result (λ cells. cells ≡ cells_in kind values.now) }
    ensures below { let below = cells_below kind (length values.now) in
        IfOk result (λ cells. All (λ cell. cell < below) cells) }
{
    match kind {
        BlockKind::Friedman | BlockKind::Page => doubled_ranks(alloc, values),
        BlockKind::Cochran => binary_cells(alloc, values),
    }
}

// The bound that each cell is below.
fn cells_below(kind: BlockKind, treatments: usize) -> usize
    requires { treatments ≤ 8 }
    ensures is { result ≡ cells_below kind treatments }
    ensures small { result ≤ 17 }
{
    match kind {
        BlockKind::Friedman | BlockKind::Page => 2 * treatments + 1,
        BlockKind::Cochran => 2,
    }
}

// Adds cells, each of which fits a byte.
fn append_cells(all: &mut Bytes, cells: &[u64]) -> Result<(), NoMemory>
    requires { All (λ cell. cell < 17) cells.now }
    ensures { OnOk result (all.new ≡ all.old ++ cells.now) }
{
    for cell in cells {
        all.push(*cell as u8)?;
    }
    Ok(())
}

// Adds a block of these values.
fn rank_block(
    alloc: Global,
    kind: BlockKind,
    values: &[i128],
    ranked: &mut Ranked,
) -> Result<(), NoMemory>
    requires few { length values.now ≤ 8 }
    requires taken { TakesCells kind values.now }
    ensures blocks { let counts = cell_counts kind (length values.now) values.now in
        OnOk result (ranked.new.blocks.items ≡ ranked.old.blocks.items ++ counts ∷ []) }
    ensures cells { let cells = cells_in kind values.now in
        OnOk result (ranked.new.cells ≡ ranked.old.cells ++ cells) }
{
    let cells = cells_in(alloc, kind, values)?;
    let below = cells_below(kind, values.len());
    let block = Block::new(alloc, below, cells.as_slice())?;
    append_cells(&mut ranked.cells, cells.as_slice())?;
    ranked.blocks.push(block)?;
    Ok(())
}

/// So many blocks of so many treatments.
pub(crate) fn rank_blocks(
    alloc: Global,
    kind: BlockKind,
    blocks: u64,
    treatments: usize,
    values: &[i128],
) -> Result<Ranked, NoMemory>
    requires few { treatments ≤ 8 }
    requires whole { length values.now ≡ blocks * treatments }
    requires taken { TakesCells kind values.now }
    ensures blocks { let rows = cut treatments blocks values.now in
        IfOk result (λ ranked. ranked.blocks.items ≡ map (cell_counts kind treatments) rows) }
    ensures cells { let rows = cut treatments blocks values.now in
        IfOk result (λ ranked. ranked.cells ≡ concat (map (cells_in kind) rows)) }
{
    let mut ranked = Ranked {
        blocks: Vec::new(alloc),
        cells: Bytes::empty(alloc),
    };
    let mut rest = values;
    for _block in 0..blocks {
        let (front, later) = rest.split_at(treatments);
        rank_block(alloc, kind, front, &mut ranked)?;
        rest = later;
    }
    Ok(ranked)
}
