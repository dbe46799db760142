// The network of Friedman's and of Cochran's test.
ghost use Rattle.std.specs.Prelude.{◌≡◌, ◌<◌, ◌≤◌, length, map, pos, IfOk};
ghost use Rattle.std.specs.List.{All};
ghost use Rattle.weights.specs.declared.TheConstants.{MAX};
ghost use Rattle.networks.specs.Addends.{from_mean};
ghost use Rattle.networks.specs.Distances.{squared};
ghost use Rattle.record_reader.specs.declared.TheConstants.{MOST_ROWS};
ghost use Rattle.block_tests.specs.BlockSteps.{AreSquares, AreStages, cells_sum};

use crate::block::Block;
use crate::block_test::sum_of;
use enumerate::next_labelling;
use networks::{Additive, CentredSquares, Interval, Judge, SumValue};
use std::alloc::Global;
use weights::NoMemory;

/// Blocks whose treatments' sums are squared: each block is a stage.
#[derive(Drop)]
pub struct SquareBlocks {
    blocks: Vec<Block>,
    treatments: usize,
    squares: CentredSquares,
    judge: Judge,
    ghost sound: { AreStages treatments blocks.items judge },
    ghost squares_are: { AreSquares treatments blocks.items squares },
}

/// The same blocks in memory of their own.
pub(crate) fn block_copies(alloc: Global, blocks: &[Block]) -> Result<Vec<Block>, NoMemory>
    ensures { IfOk result (λ copies. copies.items ≡ blocks.now) }
{
    let mut copies = Vec::new(alloc);
    for block in blocks {
        copies.push(block.copy()?)?;
    }
    Ok(copies)
}

// Writes the cells of an arrangement into a choice.
fn write_cells(cells: &[u8], choice: &mut [u64])
    requires { length choice.old ≡ length cells.now }
    ensures { choice.new ≡ cells.now }
{
    for (place, cell) in cells.iter().enumerate() {
        choice[place] = *cell as u64;
    }
}

// Reads them back.
fn read_cells(choice: &[u64], cells: &mut [u8])
    requires long { length cells.old ≡ length choice.now }
    requires small { All (λ cell. cell < 256) choice.now }
    ensures { cells.new ≡ choice.now }
{
    for (place, cell) in choice.iter().enumerate() {
        cells[place] = *cell as u8;
    }
}

// Writes what the treatments' sums are raised by.
fn write_sums(choice: &[u64], added: &mut [i128])
    requires { length added.old ≡ length choice.now }
    ensures { added.new ≡ map pos choice.now }
{
    for (place, cell) in choice.iter().enumerate() {
        added[place] = *cell as i128;
    }
}

// The sum of the cells of blocks.
fn cells_sum(blocks: &[Block]) -> u64
    requires { length blocks.now ≤ MOST_ROWS }
    ensures is { result ≡ cells_sum blocks.now }
    ensures small { result ≤ 20400000 }
{
    let mut all = 0;
    for block in blocks {
        all += sum_of(block.first());
    }
    all
}

/// What tells the squares of the sums of k treatments by their distances from the mean.
pub(crate) fn squares_from_mean(blocks: &[Block], treatments: usize, bound: u128) -> CentredSquares
    requires few { length blocks.now ≤ MOST_ROWS }
    requires some { 1 ≤ treatments }
    requires bounded { squared (cells_sum blocks.now) ≤ bound }
    requires fits { bound ≤ MAX }
    ensures mean { result ≡ from_mean treatments (cells_sum blocks.now) bound }
    ensures squares { AreSquares treatments blocks.now result }
{
    CentredSquares::from_mean(treatments as u64, cells_sum(blocks), bound)
}

impl SquareBlocks {
    /// The blocks of k treatments, with what tells their squares.
    pub(crate) fn new(
        blocks: Vec<Block>,
        treatments: usize,
        squares: CentredSquares,
        judge: Judge,
    ) -> SquareBlocks
        requires sound { AreStages treatments blocks.items judge }
        requires squares { AreSquares treatments blocks.items squares }
        ensures blocks { result.blocks.items ≡ blocks.items }
        ensures treatments { result.treatments ≡ treatments }
        ensures squares { result.squares ≡ squares }
        ensures judge { result.judge ≡ judge }
    {
        SquareBlocks {
            blocks,
            treatments,
            squares,
            judge,
        }
    }
}

impl Additive for SquareBlocks {
    ghost use Rattle.block_tests.specs.BlockNetworks.{square_addends};

    ghost addends = { λ s. square_addends s.squares s.treatments s.blocks.items s.judge };

    fn stages(&self) -> usize {
        self.blocks.len()
    }

    fn slots(&self) -> usize {
        self.treatments
    }

    fn choice_width(&self) -> usize {
        self.treatments
    }

    fn first_choice(&self, stage: usize, choice: &mut [u64]) {
        write_cells(self.blocks[stage].first(), choice);
    }

    fn next_choice(&self, _stage: usize, choice: &mut [u64]) -> bool {
        let mut numbers = [0u8; 8];
        let cells = &mut numbers[..choice.len()];
        read_cells(choice, cells);
        let moved = next_labelling(cells);
        write_cells(cells, choice);
        moved
    }

    fn adds(&self, _stage: usize, choice: &[u64], added: &mut [i128]) -> u128 {
        write_sums(choice, added);
        1
    }

    fn total(&self, stage: usize) -> u128 {
        self.blocks[stage].number()
    }

    fn range(&self, stage: usize) -> Interval {
        let first = self.blocks[stage].first();
        Interval {
            low: first[0] as i128,
            high: first[first.len() - 1] as i128,
        }
    }

    fn is_sorted(&self) -> bool {
        true
    }

    fn value(&self) -> SumValue {
        SumValue::Squares(self.squares)
    }

    fn judge(&self) -> Judge {
        self.judge
    }
}
