// The least and the greatest factored sum of squares over a box.
ghost use Rattle.std.specs.Prelude.{◌≡◌, ◌+◌, ◌*◌, ◌^◌, ◌<◌, ◌≤◌, length, min};
ghost use Rattle.completion_bounds.specs.Boxes.{least_size, greatest_size, least_squares, greatest_squares, HoldsSquares};

/// The least and the greatest sum of factors times squares over the points whose numbers lie
/// between the ends at their places, either no more than the cap. The sum of each point of the box
/// for which it is at most the cap lies between the two.
pub fn box_bounds(low: &[i128], high: &[i128], factors: &[u128], cap: u128) -> (u128, u128)
    requires highs { length high.now ≡ length low.now }
    requires factors { length factors.now ≡ length low.now }
    ensures least { result.0 ≡ min (least_squares low.now high.now factors.now) cap }
    ensures greatest { result.1 ≡ min (greatest_squares low.now high.now factors.now) cap }
    ensures holds { HoldsSquares low.now high.now factors.now cap result.0 result.1 }
{
    let mut least = 0;
    let mut greatest = 0;
    for i in 0..low.len() {
        least = add_square(least, factors[i], smallest(low[i], high[i]), cap);
        greatest = add_square(greatest, factors[i], largest(low[i], high[i]), cap);
    }
    (least, greatest)
}

/// Both sums of small numbers, without a cap, where they fit 128 bits.
#[inline(always)]
pub fn narrow_squares(low: &[i32], high: &[i32], factors: &[u128]) -> (u128, u128)
    requires highs { length high.now ≡ length low.now }
    requires factors { length factors.now ≡ length low.now }
    requires fits { greatest_squares low.now high.now factors.now < 2 ^ 128 }
    ensures least { result.0 ≡ least_squares low.now high.now factors.now }
    ensures greatest { result.1 ≡ greatest_squares low.now high.now factors.now }
{
    let mut least = 0;
    let mut greatest = 0;
    for i in 0..low.len() {
        least = plus_square(least, factors[i], nearest(low[i], high[i]));
        greatest = plus_square(greatest, factors[i], farthest(low[i], high[i]));
    }
    (least, greatest)
}

// The least absolute value of a number in a range.
#[inline(always)]
fn smallest(low: i128, high: i128) -> u128
    ensures { result ≡ least_size low high }
{
    if low <= 0 && high >= 0 {
        0
    } else {
        low.unsigned_abs().min(high.unsigned_abs())
    }
}

// The greatest absolute value of a number in a range.
#[inline(always)]
fn largest(low: i128, high: i128) -> u128
    ensures { result ≡ greatest_size low high }
{
    low.unsigned_abs().max(high.unsigned_abs())
}

// The least absolute value of a number in a range of small ones.
#[inline(always)]
fn nearest(from: i32, to: i32) -> u32
    ensures { result ≡ least_size from to }
{
    if from <= 0 && to >= 0 {
        0
    } else {
        from.unsigned_abs().min(to.unsigned_abs())
    }
}

// The greatest absolute value of a number in a range of small ones.
#[inline(always)]
fn farthest(from: i32, to: i32) -> u32
    ensures { result ≡ greatest_size from to }
{
    from.unsigned_abs().max(to.unsigned_abs())
}

// A sum with the factor times one more square.
#[inline(always)]
fn plus_square(sum: u128, factor: u128, root: u32) -> u128
    requires { sum + factor * (root * root) < 2 ^ 128 }
    ensures { result ≡ sum + factor * (root * root) }
{
    sum + factor * (root as u64 * root as u64) as u128
}

// A sum with the factor times one more square, or the cap where that is less. A factor 0 adds
// nothing even where the square alone would not fit.
fn add_square(sum: u128, factor: u128, root: u128, cap: u128) -> u128
    requires { sum ≤ cap }
    ensures { result ≡ min (sum + factor * (root * root)) cap }
{
    if factor == 0 {
        return sum;
    }
    let square = root.checked_mul(root);
    match square.and_then(|square| factor.checked_mul(square)) {
        Some(added) if added <= cap - sum => sum + added,
        _ => cap,
    }
}
