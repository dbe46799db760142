// In which order the subjects are drawn, how far apart their sums lie, where they are cut, and
// whether the sums of their draws are so few that rows of cells serve.
ghost use Rattle.std.specs.Prelude.{◌≡◌, pos, ◌<◌, ◌≤◌, ◌∷◌, length, IfOk};
ghost use Rattle.networks.specs.PartialSums.{ascending};
ghost use Rattle.score_convolution.specs.Subjects.{AreApart};

use std::alloc::Global;
use weights::{NoMemory, gcd};

/// Scores in ascending order.
pub(crate) fn in_order(alloc: Global, scores: &[i128]) -> Result<Vec<i128>, NoMemory>
    ensures { IfOk result (λ sorted. sorted.items ≡ ascending scores.now) }
{
    let mut sorted = Vec::from_slice(alloc, scores)?;
    sorted.sort_unstable();
    Ok(sorted)
}

/// A number of which every two scores are a multiple apart; 0 where all are equal. It is the
/// greatest one, by which the rows are shortest: the contract wants any.
pub(crate) fn common_stride(scores: &[i128]) -> u128
    ensures { AreApart result scores.now }
{
    let mut stride = 0u128;
    for i in 1..scores.len() {
        stride = gcd(stride, scores[i].abs_diff(scores[0]));
    }
    stride
}

/// A number of which every score is a multiple; 0 where all are 0. It is the greatest one too.
pub(crate) fn common_divisor(scores: &[i128]) -> u128
    ensures { AreApart result (pos 0 ∷ scores.now) }
{
    let mut divisor = 0u128;
    for i in 0..scores.len() {
        divisor = gcd(divisor, scores[i].unsigned_abs());
    }
    divisor
}

// How many sums the draws of at most so many of these subjects may have.
fn cells_of(sorted: &[i128], stride: u128, most: usize) -> u128
    requires { 0 < stride }
{
    let mut least = 0i128;
    let mut greatest = 0i128;
    let mut cells = 1u128;
    for n in 0..most.min(sorted.len()) {
        least = least.saturating_add(sorted[n]);
        greatest = greatest.saturating_add(sorted[sorted.len() - 1 - n]);
        let more = greatest.abs_diff(least) / stride;
        cells = cells.saturating_add(more.saturating_add(1));
    }
    cells
}

// What it takes to draw them.
fn work_of(sorted: &[i128], stride: u128, most: usize) -> u128
    requires { 0 < stride }
{
    cells_of(sorted, stride, most).saturating_mul(sorted.len() as u128)
}

/// Where the subjects are cut, so that both parts take about as much.
pub(crate) fn cut_of(sorted: &[i128], stride: u128, most: usize) -> usize
    requires { 0 < stride }
    ensures { result ≤ length sorted.now }
{
    let mut low = 0;
    let mut high = sorted.len();
    while low < high {
        let middle = low + (high - low) / 2;
        let first = work_of(&sorted[..middle], stride, most);
        if first < work_of(&sorted[middle..], stride, most) {
            low = middle + 1;
        } else {
            high = middle;
        }
    }
    low
}

/// Whether the rows of their draws are not too long: they have few cells where there are few draws,
/// and fewer where there are so many subjects that adding would take long.
pub(crate) fn is_dense(sorted: &[i128], stride: u128, most: usize) -> bool
    requires { 0 < stride }
{
    let subjects = sorted.len();
    let few = 1u128 << subjects.saturating_add(3).min(25);
    cells_of(sorted, stride, most) <= few.min((1 << 33) / subjects.max(1) as u128)
}

/// Whether tie groups are so large that a sweep by them saves much: of each it takes no more
/// subjects one by one than are drawn.
pub(crate) fn have_ties(sorted: &[i128], most: usize) -> bool {
    let mut taken = 0usize;
    for i in 0..sorted.len() {
        if i < most || sorted[i] != sorted[i - most] {
            taken += 1;
        }
    }
    taken < sorted.len() / 4
}

// The sum of the absolute scores, as far as 128 bits say it.
fn absolute_sum(scores: &[i128]) -> u128 {
    let mut sum = 0u128;
    for i in 0..scores.len() {
        sum = sum.saturating_add(scores[i].unsigned_abs());
    }
    sum
}

/// Whether the sums of any number of these scores are not too many for a row: where any number of
/// half of the subjects is drawn.
pub(crate) fn are_few_sums(scores: &[i128], stride: u128) -> bool
    requires { 0 < stride }
{
    let subjects = scores.len() / 2;
    let most = if subjects < 15 {
        1u128 << subjects
    } else if subjects < 40 {
        1 << 15
    } else {
        1 << 20
    };
    absolute_sum(scores) / stride <= most
}

/// Whether the scores are so small that the places of all their sums are numbers of 64 bits.
pub(crate) fn are_near_sums(scores: &[i128], stride: u128) -> bool
    requires { 0 < stride }
{
    absolute_sum(scores) / stride < 1 << 64
}

/// Whether it takes few steps to read so many keys against the draws of those who are left: in rows
/// of cells, fewer than the keys of so many stages; in lists, no more than all of these draws are,
/// or than a fraction of a second.
pub(crate) fn has_few_steps(keys: usize, left: &[i128], dense: bool) -> bool {
    if dense {
        return keys / 32 <= left.len();
    }
    let each = 1u128 << (left.len() / 2).min(126);
    (keys as u128).saturating_mul(each) <= 1 << left.len().max(26).min(126)
}
