// The public calls of `block_tests`.
ghost use Rattle.std.specs.Prelude.{◌<◌, ◌≡◌, IfOk, true, ◌*◌, ◌^◌, ◌≤◌, All, length, nat_abs};
ghost use Rattle.block_tests.specs.BlockNetworks.{block_network, running_network};
ghost use Rattle.block_tests.specs.BlockTests.{TakesCells, block_test, blocks_for};
ghost use Rattle.networks.specs.Completions.{extreme_weight, total_weight};
ghost use Rattle.networks.specs.Follows.{answer_of, open_keys};
ghost use Rattle.networks.specs.Lines.{WeightsFit};
ghost use Rattle.sample_reader.specs.CellLayouts.{BlockData};
ghost use Rattle.sample_reader.specs.Data.{block_data_of};
ghost use Rattle.weights.specs.Conditional.{distribution, numerator, total};
ghost use Rattle.weights.specs.Wide.{Prepares};

use crate::sample_reader_calls::blocks_of;
use block_tests::{BlockKind, BlockStages, BlockTest};
use sample_reader::Blocks;
use stage_network::{Answer, PrepareFault, Spread, Stages, Way};
use std::alloc::Global;
use weights::{Ints, NoMemory, Tail, Tails};

/// A test of blocks, or which number is too wide.
pub fn prepare(alloc: Global, kind: BlockKind, blocks: &Blocks) -> Result<BlockTest, PrepareFault>
    requires { TakesCells kind blocks.now.cells }
    ensures { Prepares block_test (blocks_for kind (block_data_of blocks.now)) result }
{
    block_tests::prepare(alloc, kind, blocks)
}

/// The answer of a test for tails that it has, by either way.
pub fn answer(
    alloc: Global,
    problem: &BlockTest,
    tails: Tails,
    way: Way,
) -> Result<Answer, NoMemory>
    requires less { tails.less ≡ true → (block_test problem.now).has_tail Tail.Less ≡ true }
    requires greater { tails.greater ≡ true
        → (block_test problem.now).has_tail Tail.Greater ≡ true }
    requires two { tails.two ≡ true → (block_test problem.now).has_tail Tail.Two ≡ true }
    ensures { let opened = open_keys (block_network problem.now) in
        IfOk result (λ answer.
        answer ≡ answer_of (block_test problem.now) opened tails way) }
{
    block_tests::answer(alloc, problem, tails, way)
}

/// The distribution of a test, by either way.
pub fn distribution(alloc: Global, problem: &BlockTest, way: Way) -> Result<Spread, NoMemory>
    ensures lines { IfOk result (λ spread. spread ≡ distribution (block_test problem.now)) }
    ensures weights { IfOk result WeightsFit }
{
    block_tests::distribution(alloc, problem, way)
}

/// The place of a kind of test of blocks. There are three, and no other.
pub fn block_place(kind: BlockKind) -> u64
    ensures { result < 3 }
{
    match kind {
        BlockKind::Friedman => 0,
        BlockKind::Page => 1,
        BlockKind::Cochran => 2,
    }
}

/// The network that runs for a tail that the test has. All completions of its first key weigh the
/// total, and the extreme ones the tail's numerator.
pub fn stages_of(alloc: Global, problem: &BlockTest, tail: Tail) -> Result<BlockStages, NoMemory>
    requires { (block_test problem.now).has_tail tail ≡ true }
    ensures built { let n = running_network problem.now tail in
        IfOk result (λ built. ⟦<BlockStages as Stages>⟧.network built ≡ n) }
    ensures rest { let n = running_network problem.now tail in
        total_weight n 0 n.first ≡ total (block_test problem.now) }
    ensures numerator { let n = running_network problem.now tail in
        extreme_weight n tail 0 n.first ≡ numerator (block_test problem.now) tail }
{
    block_tests::stages_of(alloc, problem, tail)
}

/// A test of blocks of their parts.
pub fn prepared_blocks(
    alloc: Global,
    kind: BlockKind,
    blocks: u64,
    treatments: u64,
    cells: Ints,
) -> Result<BlockTest, PrepareFault>
    requires some { 1 ≤ blocks }
    requires few { blocks ≤ 10000 }
    requires two { 2 ≤ treatments }
    requires eight { treatments ≤ 8 }
    requires one_each { length cells ≡ blocks * treatments }
    requires small { All (λ cell. nat_abs cell < 10 ^ 36) cells }
    requires takes { TakesCells kind cells }
    ensures { let made : BlockData =
        record { blocks = blocks; treatments = treatments; cells = cells } in
        Prepares block_test (blocks_for kind made) result }
{
    let blocks = blocks_of(blocks, treatments, cells);
    prepare(alloc, kind, &blocks)
}
