// Sums and products of numbers that pass no limit, each a call of its own, so that a loop over them
// owes one bound at a time.
ghost use Rattle.std.specs.Prelude.{◌≡◌, ◌+◌, ◌*◌, ◌^◌, ◌<◌, ◌≤◌, length, slice_index_or, unsigned_abs, pos, ◌+ℤ◌, ◌*ℤ◌};
ghost use Rattle.std.specs.List.{sum};

use crate::MAX;

/// The one number of a list that has no other.
#[inline(always)]
pub fn only(numbers: &[i128]) -> i128
    requires { length numbers.now ≡ 1 }
    ensures { result ≡ slice_index_or numbers.now 0 (pos 0) }
{
    numbers[0]
}

/// The sum of two numbers.
#[inline(always)]
pub fn plus(a: i128, b: i128) -> i128
    requires { unsigned_abs a + unsigned_abs b ≤ MAX }
    ensures { result ≡ a +ℤ b }
{
    a + b
}

/// The product of two numbers.
#[inline(always)]
pub fn times(a: i128, b: i128) -> i128
    requires { unsigned_abs a * unsigned_abs b ≤ MAX }
    ensures { result ≡ a *ℤ b }
{
    a * b
}

/// A score, so many times.
#[inline(always)]
pub fn count_times(count: u64, score: i128) -> i128
    requires { count * unsigned_abs score ≤ MAX }
    ensures { result ≡ pos count *ℤ score }
{
    count as i128 * score
}

/// A sum with a score once for each of so many units.
#[inline(always)]
pub fn with_units(sum: i128, score: i128, count: u64) -> i128
    requires { unsigned_abs sum + count * unsigned_abs score ≤ MAX }
    ensures { result ≡ sum +ℤ (pos count *ℤ score) }
{
    sum + count as i128 * score
}

/// The sum of some counts.
pub fn total_of(counts: &[u64]) -> u64
    requires { sum counts.now < 2 ^ 64 }
    ensures { result ≡ sum counts.now }
{
    counts.iter().sum()
}
