// The sums of treatments, and what is measured of them.
ghost use Rattle.std.specs.Prelude.{◌≡◌, ℕ, ◌+◌, ◌*◌, ◌-◌, ◌<◌, ◌≤◌, length, pos, reverse, All};
ghost use Rattle.record_reader.specs.declared.TheConstants.{MOST_ROWS};
ghost use Rattle.rank_assignments.specs.BoundSteps.{IsSmall};
ghost use Rattle.block_tests.specs.BlockTests.{added, block_statistic, cut, page_sum, square_sum, treatment_sums};

use crate::kinds::BlockKind;

// The greatest sum of a treatment's cells, each a byte, over as many blocks as a file has rows.
const MOST_SUM: u64 = 255 * 10_000;

// The greatest of Page's sums of a block, of eight bytes by eight places.
const MOST_PAGE_SUM: u64 = 255 * 64;

// Adds cells to the sums, place by place.
fn add_cells(cells: &[u8], sums: &mut [u64])
    requires long { length sums.old ≡ length cells.now }
    requires small { All (λ sum. sum ≤ MOST_SUM) sums.old }
    ensures { sums.new ≡ added sums.old cells.now }
{
    for (place, cell) in cells.iter().enumerate() {
        sums[place] += *cell as u64;
    }
}

// The sums of the treatments' cells over all blocks.
fn treatment_sums(blocks: usize, cells: &[u8], sums: &mut [u64])
    requires few { blocks ≤ MOST_ROWS }
    requires whole { length cells.now ≡ blocks * length sums.old }
    ensures sums { let k = length sums.old in
        sums.new ≡ treatment_sums k (cut k blocks cells.now) }
    ensures small { All (λ sum. sum ≤ MOST_SUM) sums.new }
{
    let treatments = sums.len();
    sums.fill(0);
    let mut rest = cells;
    for _block in 0..blocks {
        let (front, later) = rest.split_at(treatments);
        add_cells(front, sums);
        rest = later;
    }
}

// The squares of sums, added.
fn square_sum(sums: &[u64]) -> u64
    requires few { length sums.now ≤ 8 }
    requires small { All (λ sum. sum ≤ MOST_SUM) sums.now }
    ensures is { result ≡ square_sum sums.now }
    ensures small { result ≤ 8 * (MOST_SUM * MOST_SUM) }
{
    let mut all = 0;
    for sum in sums {
        all += *sum * *sum;
    }
    all
}

/// Each of at most eight cells, times its place from 1 on, added.
pub(crate) fn page_sum(cells: &[u8]) -> u64
    requires { length cells.now ≤ 8 }
    ensures is { result ≡ page_sum 1 cells.now }
    ensures small { result ≤ MOST_PAGE_SUM }
{
    let mut all = 0;
    for (place, cell) in cells.iter().enumerate() {
        all += (place as u64 + 1) * *cell as u64;
    }
    all
}

/// The same of the cells from the last to the first.
pub(crate) fn page_sum_back(cells: &[u8]) -> u64
    requires { length cells.now ≤ 8 }
    ensures is { result ≡ page_sum 1 (reverse cells.now) }
    ensures small { result ≤ MOST_PAGE_SUM }
{
    let mut numbers = [0u8; 8];
    let back = &mut numbers[..cells.len()];
    back.copy_from_slice(cells);
    back.reverse();
    page_sum(back)
}

// Page's sum over all blocks.
fn page_sums(blocks: usize, treatments: usize, cells: &[u8]) -> u64
    requires few { blocks ≤ MOST_ROWS }
    requires narrow { treatments ≤ 8 }
    requires whole { length cells.now ≡ blocks * treatments }
    ensures is { result ≡ page_sum 1 (treatment_sums treatments (cut treatments blocks cells.now)) }
    ensures small { result ≤ MOST_ROWS * MOST_PAGE_SUM }
{
    let mut all = 0;
    let mut rest = cells;
    for _block in 0..blocks {
        let (front, later) = rest.split_at(treatments);
        all += page_sum(front);
        rest = later;
    }
    all
}

// The squares of the treatments' sums over all blocks.
fn square_sums(blocks: usize, treatments: usize, cells: &[u8]) -> u64
    requires few { blocks ≤ MOST_ROWS }
    requires narrow { treatments ≤ 8 }
    requires whole { length cells.now ≡ blocks * treatments }
    ensures is { let sums = treatment_sums treatments (cut treatments blocks cells.now) in
        result ≡ square_sum sums }
    ensures small { result ≤ 8 * (MOST_SUM * MOST_SUM) }
{
    let mut numbers = [0u64; 8];
    let sums = &mut numbers[..treatments];
    treatment_sums(blocks, cells, sums);
    square_sum(sums)
}

/// What is measured of the cells of blocks, one after another.
pub(crate) fn block_statistic(
    kind: BlockKind,
    blocks: usize,
    treatments: usize,
    cells: &[u8],
) -> i128
    requires few { blocks ≤ MOST_ROWS }
    requires narrow { treatments ≤ 8 }
    requires whole { length cells.now ≡ blocks * treatments }
    ensures is { result ≡ block_statistic kind blocks treatments cells.now }
    ensures small { IsSmall result }
{
    match kind {
        BlockKind::Page => page_sums(blocks, treatments, cells) as i128,
        BlockKind::Friedman | BlockKind::Cochran => square_sums(blocks, treatments, cells) as i128,
    }
}
