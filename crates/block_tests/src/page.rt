// The network of Page's test. What the arrangements of a block add is found once, by a walk through
// them, and blocks whose cells are alike share it.
ghost use Rattle.std.specs.Prelude.{◌≡◌, ◌<◌, length, pos, int_le, IfOk, IfSome, slice_index_or};
ghost use Rattle.block_tests.specs.BlockNetworks.{no_line, page_lines};
ghost use Rattle.block_tests.specs.BlockSteps.{AreStages};

use crate::block::Block;
use crate::sums::{page_sum, page_sum_back};
use enumerate::{Framed, Plain, is_extreme_by, next_labelling};
use networks::{Additive, Interval, Judge, SumValue};
use stage_network::plain_spread;
use std::alloc::Global;
use std::marker::Model;
use weights::{Bytes, Frame, Line, NoMemory, Rule, Tail};

/// A block with the sums that its arrangements add, ascending, each with how many add it.
#[derive(Drop)]
pub(crate) struct PageBlock {
    block: Block,
    lines: Vec<Line>,
}

impl Model for PageBlock {
    ghost use Rattle.std.specs.Prelude.{◌≡◌, List, ℕ};
    ghost use Rattle.block_tests.specs.BlockNetworks.{page_lines};

    ghost Value = { List ℕ };

    ghost view = { λ b. b.block };

    ghost invariant = { λ b. b.lines.items ≡ page_lines b.block };
}

// The walk through the arrangements of one block.
impl Plain for Block {
    ghost use Rattle.block_tests.specs.BlockNetworks.{arrangement_test};

    ghost test = { arrangement_test };

    fn first(&self, alloc: Global) -> Result<Bytes, NoMemory> {
        let mut cells = Bytes::empty(alloc);
        cells.append(Block::first(self))?;
        Ok(cells)
    }

    fn next(&self, labels: &mut Bytes) -> bool {
        next_labelling(labels.as_mut_slice())
    }

    fn weight(&self, _labels: &[u8]) -> u128 {
        1
    }

    fn extreme(&self, labels: &[u8], tail: Tail) -> bool {
        is_extreme_by(&self.frame(), self.measure(labels, tail), tail)
    }

    fn value(&self, labels: &[u8]) -> i128 {
        let _few = Block::first(self);
        page_sum(labels) as i128
    }
}

impl Framed for Block {
    fn frame(&self) -> Frame {
        let cells = Block::first(self);
        let statistic = page_sum(cells) as i128;
        Frame {
            statistic,
            scale: 1,
            total: self.number(),
            two: Rule::one_sided(statistic),
        }
    }

    fn measure(&self, labels: &[u8], _tail: Tail) -> i128 {
        self.value(labels)
    }
}

// What the arrangements of a block add.
fn walked_lines(alloc: Global, block: &Block) -> Result<Vec<Line>, NoMemory>
    ensures { IfOk result (λ lines. lines.items ≡ page_lines block.now) }
{
    let spread = plain_spread(alloc, block)?;
    let lines = Vec::from_slice(alloc, spread.as_slice())?;
    Ok(lines)
}

// The place of a block whose cells are those of another, if there is one.
fn place_alike(blocks: &[PageBlock], block: &Block) -> Option<usize>
    ensures within { IfSome result (λ place. place < length blocks.now) }
    ensures alike { IfSome result (λ place.
        slice_index_or blocks.now place block.now ≡ block.now) }
{
    for (place, other) in blocks.iter().enumerate() {
        if other.block.is_alike(block) {
            return Some(place);
        }
    }
    None
}

impl PageBlock {
    // A block with the lines of one that is alike.
    fn beside(alloc: Global, block: Block, alike: &PageBlock) -> Result<PageBlock, NoMemory>
        requires { alike.now ≡ block }
        ensures { IfOk result (λ made. made ≡ block) }
    {
        let lines = Vec::from_slice(alloc, alike.lines.as_slice())?;
        Ok(PageBlock { block, lines })
    }

    // A block whose arrangements are walked through, unless an earlier one is alike.
    fn after(alloc: Global, block: Block, earlier: &[PageBlock]) -> Result<PageBlock, NoMemory>
        ensures { IfOk result (λ made. made ≡ block) }
    {
        match place_alike(earlier, &block) {
            Some(place) => PageBlock::beside(alloc, block, &earlier[place]),
            None => {
                let lines = walked_lines(alloc, &block)?;
                Ok(PageBlock { block, lines })
            }
        }
    }

    fn lines(&self) -> &[Line]
        ensures { result.now ≡ page_lines self.now }
    {
        self.lines.as_slice()
    }
}

/// Blocks with what their arrangements add.
pub(crate) fn page_blocks(alloc: Global, blocks: &[Block]) -> Result<Vec<PageBlock>, NoMemory>
    ensures { IfOk result (λ made. made.items ≡ blocks.now) }
{
    let mut made = Vec::new(alloc);
    for block in blocks {
        let next = PageBlock::after(alloc, block.copy()?, made.as_slice())?;
        made.push(next)?;
    }
    Ok(made)
}

/// Blocks whose Page's sums are added: each block is a stage.
#[derive(Drop)]
pub struct PageBlocks {
    blocks: Vec<PageBlock>,
    treatments: usize,
    judge: Judge,
    ghost sound: { AreStages treatments blocks.items judge },
}

impl PageBlocks {
    /// The blocks of at most eight treatments.
    pub(crate) fn new(blocks: Vec<PageBlock>, treatments: usize, judge: Judge) -> PageBlocks
        requires { AreStages treatments blocks.items judge }
        ensures blocks { result.blocks.items ≡ blocks.items }
        ensures judge { result.judge ≡ judge }
    {
        PageBlocks {
            blocks,
            treatments,
            judge,
        }
    }
}

// The line at a place.
fn line_at(lines: &[Line], place: u64) -> Line
    requires { place < length lines.now }
    ensures { result ≡ slice_index_or lines.now place no_line }
{
    lines[place as usize]
}

impl Additive for PageBlocks {
    ghost use Rattle.block_tests.specs.BlockNetworks.{line_addends};

    ghost addends = { λ s. line_addends s.blocks.items s.judge };

    fn stages(&self) -> usize {
        self.blocks.len()
    }

    fn slots(&self) -> usize {
        1
    }

    fn choice_width(&self) -> usize {
        1
    }

    fn first_choice(&self, _stage: usize, choice: &mut [u64]) {
        choice[0] = 0;
    }

    fn next_choice(&self, stage: usize, choice: &mut [u64]) -> bool {
        let count = self.blocks[stage].lines().len() as u64;
        let next = choice[0] + 1;
        if next < count {
            choice[0] = next;
            true
        } else {
            false
        }
    }

    fn adds(&self, stage: usize, choice: &[u64], added: &mut [i128]) -> u128 {
        let line = line_at(self.blocks[stage].lines(), choice[0]);
        added[0] = line.value;
        line.weight
    }

    fn total(&self, stage: usize) -> u128 {
        self.blocks[stage].block.number()
    }

    fn range(&self, stage: usize) -> Interval {
        let first = self.blocks[stage].block.first();
        Interval {
            low: page_sum_back(first) as i128,
            high: page_sum(first) as i128,
        }
    }

    fn is_sorted(&self) -> bool {
        false
    }

    fn value(&self) -> SumValue {
        SumValue::First
    }

    fn judge(&self) -> Judge {
        self.judge
    }
}
