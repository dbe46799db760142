// Sums of the scores of groups, and their squares.
ghost use Rattle.std.specs.Prelude.{◌≡◌, ◌+◌, ◌*◌, ◌/◌, ◌<◌, ◌≤◌, length, pos, unsigned_abs, ◌+ℤ◌, nat_eq, if◌then◌else◌, IfOk};
ghost use Rattle.std.specs.List.{All};
ghost use Rattle.weights.specs.declared.TheConstants.{MAX};
ghost use Rattle.completion_bounds.specs.Boxes.{factored_squares};
ghost use Rattle.weights.specs.Numbers.{absolute_sum};
ghost use Rattle.scores.specs.PlaceScores.{common_multiple};
ghost use Rattle.kruskal_wallis.specs.KruskalWallis.{group_sums, size_factors, squares_statistic};

use completion_bounds::box_bounds;
use scores::labelled_sum;
use std::alloc::Global;
use weights::NoMemory;

/// A multiple of all the sizes, divided by each of them.
pub(crate) fn size_factors(
    alloc: Global,
    multiple: u128,
    sizes: &[u64],
) -> Result<Vec<u128>, NoMemory>
    requires multiple { multiple ≡ common_multiple sizes.now }
    requires some { All (λ size. 0 < size) sizes.now }
    ensures { IfOk result (λ factors. factors.items ≡ size_factors sizes.now) }
{
    let mut factors = Vec::new(alloc);
    for size in sizes {
        factors.push(multiple / *size as u128)?;
    }
    Ok(factors)
}

// Writes the sums of the scores of the groups, in their order.
fn group_sums(scores: &[i128], labels: &[u8], sums: &mut [i128])
    requires { absolute_sum scores.now ≤ MAX }
    ensures { sums.new ≡ group_sums (length sums.old) scores.now labels.now }
{
    for i in 0..sums.len() {
        sums[i] = labelled_sum(scores, labels, i as u64);
    }
}

/// The factored sum of squares of a point that has no more than the bound.
#[inline(always)]
pub(crate) fn squares_of(point: &[i128], factors: &[u128], bound: u128) -> i128
    requires one_each { length factors.now ≡ length point.now }
    requires within { factored_squares point.now factors.now ≤ bound }
    requires fits { bound ≤ MAX }
    ensures { result ≡ pos (factored_squares point.now factors.now) }
{
    let (sum, _same) = box_bounds(point, point, factors, bound);
    sum as i128
}

/// The statistic of a labelling of subjects with these scores, whose groups have these factors.
pub(crate) fn squares_statistic(
    scores: &[i128],
    labels: &[u8],
    sizes: &[u64],
    factors: &[u128],
    bound: u128,
) -> i128
    requires few_rows { length sizes.now ≤ 8 }
    requires factors { factors.now ≡ size_factors sizes.now }
    requires sums_fit { absolute_sum scores.now ≤ MAX }
    requires within { let sums = group_sums (length sizes.now) scores.now labels.now in
        factored_squares sums factors.now ≤ bound }
    requires fits { bound ≤ MAX }
    ensures { result ≡ squares_statistic sizes.now scores.now labels.now }
{
    let mut numbers = [0i128; 8];
    let sums = &mut numbers[..sizes.len()];
    group_sums(scores, labels, sums);
    squares_of(sums, factors, bound)
}
