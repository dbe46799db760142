// Blocks that are prepared for their test.
ghost use Rattle.std.specs.Prelude.{◌≡◌, ◌*◌, ◌≤◌, length, map, Contains, SomeIff};
ghost use Rattle.std.specs.List.{sum};
ghost use Rattle.weights.specs.Wide.{Prepares};
ghost use Rattle.weights.specs.declared.TheConstants.{MAX};
ghost use Rattle.record_reader.specs.declared.TheConstants.{MOST_ROWS};
ghost use Rattle.sample_reader.specs.Data.{block_data_of};
ghost use Rattle.rank_assignments.specs.BoundSteps.{IsSmall};
ghost use Rattle.block_tests.specs.BlockTests.{TakesCells, block_counts, block_statistic};
ghost use Rattle.block_tests.specs.BlockTests.{block_test, blocks_for, bound_of};
ghost use Rattle.block_tests.specs.BlockTests.{block_scale, sides_of};
ghost use Rattle.block_tests.specs.BlockSteps.{ways_of};
ghost use Rattle.block_tests.specs.PreparedSteps.{AreFitting, far_of};

use crate::block::{Block, lengths};
use crate::kinds::BlockKind;
use crate::ranked::rank_blocks;
use crate::sums::block_statistic;
use labelled::Unweighted;
use sample_reader::Blocks;
use std::alloc::Global;
use std::marker::Model;
use weights::{Frame, Ints, Nums, PrepareFault, Rule, WideOf, bounded_product};

/// A test of blocks whose data are checked.
pub type BlockTest = Unweighted<BlockStatistic>;

/// What a test measures of the treatments' sums. It is seen as its kind and the blocks that it was
/// prepared of.
#[derive(Drop)]
pub struct BlockStatistic {
    kind: BlockKind,
    blocks: u64,
    treatments: u64,
    // What it was prepared of, by which contracts name it.
    cells: Ints,
    made: Vec<Block>,
    // How many cells each block has, for the walk.
    lengths: Nums,
    bound: u128,
}

impl Model for BlockStatistic {
    ghost use Rattle.block_tests.specs.BlockTests.{BlockTests};
    ghost use Rattle.block_tests.specs.PreparedSteps.{IsPrepared, tests_of};

    ghost Value = { BlockTests };

    ghost view = { λ t. tests_of t.kind t.blocks t.treatments t.cells };

    ghost invariant = { λ t. let tests = tests_of t.kind t.blocks t.treatments t.cells in
        IsPrepared tests t.made.items t.lengths t.bound };
}

// How many rearrangements blocks have. None exactly where their number passes the greatest.
fn ways_of(blocks: &[Block]) -> Option<u128>
    ensures { SomeIff result (ways_of blocks.now ≤ MAX) (ways_of blocks.now) }
{
    let mut ways = 1;
    for block in blocks {
        ways = bounded_product(ways, block.number())?;
    }
    Some(ways)
}

/// The sum of cells.
pub(crate) fn sum_of(cells: &[u8]) -> u64
    requires { length cells.now ≤ 80000 }
    ensures is { result ≡ sum cells.now }
    ensures small { result ≤ 255 * length cells.now }
{
    let mut all = 0;
    for cell in cells {
        all += *cell as u64;
    }
    all
}

fn squared(number: u64) -> u128
    ensures { result ≡ number * number }
{
    number as u128 * number as u128
}

// The bound of a test of so many blocks with these cells.
fn bound_of(kind: BlockKind, blocks: u64, treatments: u64, cells: &[u8]) -> u128
    requires few { blocks ≤ MOST_ROWS }
    requires narrow { treatments ≤ 8 }
    requires whole { length cells.now ≡ blocks * treatments }
    ensures { result ≡ bound_of kind blocks treatments cells.now }
{
    match kind {
        BlockKind::Friedman => squared(blocks * treatments * (treatments + 1)),
        BlockKind::Page => 2 * blocks as u128 * squared(treatments) * (treatments as u128 + 1),
        BlockKind::Cochran => squared(sum_of(cells)),
    }
}

fn scale_of(kind: BlockKind) -> u128
    ensures { result ≡ block_scale kind }
{
    match kind {
        BlockKind::Friedman => 4,
        BlockKind::Page => 2,
        BlockKind::Cochran => 1,
    }
}

// The rule of both sides of a test with this observed statistic.
fn sides_rule(kind: BlockKind, blocks: u64, treatments: u64, observed: i128) -> Rule
    requires few { blocks ≤ MOST_ROWS }
    requires narrow { treatments ≤ 8 }
    requires small { IsSmall observed }
    ensures { result ≡ far_of (sides_of kind blocks treatments) observed }
{
    match kind {
        BlockKind::Page => {
            let centre = blocks as u128 * treatments as u128 * squared(treatments + 1);
            Rule::far(2, centre as i128, observed)
        }
        BlockKind::Friedman | BlockKind::Cochran => Rule::one_sided(observed),
    }
}

// What is said of the test of so many blocks with these cells, which have so many rearrangements.
fn frame_of(kind: BlockKind, blocks: u64, treatments: u64, cells: &[u8], total: u128) -> Frame
    requires few { blocks ≤ MOST_ROWS }
    requires narrow { treatments ≤ 8 }
    requires whole { length cells.now ≡ blocks * treatments }
    ensures { let statistic = block_statistic kind blocks treatments cells.now in
        result ≡ record {
          statistic = statistic;
          scale = block_scale kind;
          total = total;
          two = far_of (sides_of kind blocks treatments) statistic;
        } }
{
    let statistic = block_statistic(kind, blocks as usize, treatments as usize, cells);
    Frame {
        statistic,
        scale: scale_of(kind),
        total,
        two: sides_rule(kind, blocks, treatments, statistic),
    }
}

/// Prepares a test of blocks. For Friedman's and Page's tests the values of a block are ranked
/// within it, with average ranks at ties; Cochran's takes zeros and ones. The reference set has
/// every choice of one arrangement of each block's cells over the treatments, equal cells that
/// change places being one arrangement.
///
/// # Errors
/// `TooWide(Total)` where there are more rearrangements than `weights::MAX`. The statistic of
/// blocks of a file is never too wide. Or else `NoMemory` where memory runs out.
pub fn prepare(alloc: Global, kind: BlockKind, blocks: &Blocks) -> Result<BlockTest, PrepareFault>
    requires { TakesCells kind blocks.now.cells }
    ensures { Prepares block_test (blocks_for kind (block_data_of blocks.now)) result }
{
    let rows = blocks.blocks;
    let treatments = blocks.treatments;
    let ranked = rank_blocks(
        alloc,
        kind,
        rows,
        treatments as usize,
        blocks.cells.as_slice(),
    )?;
    let Some(total) = ways_of(&ranked.blocks) else {
        return Err(PrepareFault::TooWide(WideOf::Total));
    };
    let lengths = lengths(alloc, &ranked.blocks)?;
    let cells = ranked.cells.as_slice();
    let bound = bound_of(kind, rows, treatments, cells);
    let frame = frame_of(kind, rows, treatments, cells, total);
    let statistic = BlockStatistic {
        kind,
        blocks: rows,
        treatments,
        cells: blocks.cells.copy()?,
        made: ranked.blocks,
        lengths,
        bound,
    };
    Ok(Unweighted::of(statistic, frame))
}

impl BlockStatistic {
    /// Which test it is.
    pub(crate) fn kind(&self) -> BlockKind
        ensures { result ≡ self.now.kind }
    {
        self.kind
    }

    /// The blocks, of which so many rearrangements as the total says can be made.
    pub(crate) fn blocks(&self) -> &[Block]
        ensures blocks { result.now ≡ block_counts self.now }
        ensures fitting { AreFitting self.now }
    {
        self.made.as_slice()
    }

    /// How many cells each of them has.
    pub(crate) fn lengths(&self) -> &[u64]
        ensures { map sum (block_counts self.now) ≡ result.now }
    {
        self.lengths.as_slice()
    }

    /// How many treatments there are.
    pub(crate) fn treatments(&self) -> usize
        ensures { result ≡ self.now.blocks.treatments }
    {
        self.treatments as usize
    }

    /// The bound of the statistic.
    pub(crate) fn bound(&self) -> u128
        ensures { result ≡ (block_test self.now).bound }
    {
        self.bound
    }

    /// What is measured of a rearrangement.
    pub(crate) fn statistic_of(&self, cells: &[u8]) -> i128
        requires { Contains (block_test self.now).reference cells.now }
        ensures { result ≡ (block_test self.now).statistic cells.now }
    {
        block_statistic(
            self.kind,
            self.blocks as usize,
            self.treatments as usize,
            cells,
        )
    }
}
