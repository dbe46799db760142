// The sizes in a key: read, written, taken from and counted.
ghost use Rattle.std.specs.Prelude.{◌≡◌, ◌-◌, ◌^◌, ◌<◌, ◌≤◌, length, map, nat_abs, pos, true};
ghost use Rattle.std.specs.List.{sum};
ghost use Rattle.weights.specs.Grouped.{fits, minus};
ghost use Rattle.weights.specs.Labellings.{number_of_labellings};
ghost use Rattle.weights.specs.declared.TheConstants.{MAX};
ghost use Rattle.label_network.specs.LabelSteps.{AreSizes, IsHeld, IsSize};
ghost use Rattle.label_network.specs.Meanings.{sizes_in};

use crate::binomials::Binomials;
use crate::choice_order::size_in;
use weights::total_of;

/// Writes the sizes that the numbers of a key stand for.
pub fn read_sizes(front: &[i128], sizes: &mut [u64])
    requires sizes { AreSizes front.now }
    requires room { length sizes.old ≡ length front.now }
    ensures { sizes.new ≡ sizes_in front.now }
{
    for i in 0..front.len() {
        sizes[i] = size_in(front[i]);
    }
}

/// Writes sizes as the numbers of a key.
pub fn write_sizes(sizes: &[u64], front: &mut [i128])
    requires { length front.old ≡ length sizes.now }
    ensures { front.new ≡ map pos sizes.now }
{
    for i in 0..sizes.len() {
        front[i] = sizes[i] as i128;
    }
}

#[inline(always)]
fn less(size: i128, count: u64) -> i128
    requires size { IsSize size }
    requires fewer { count ≤ nat_abs size }
    ensures { result ≡ pos (nat_abs size - count) }
{
    size - count as i128
}

/// Writes the sizes that remain after a choice.
pub fn take_away(front: &[i128], choice: &[u64], left: &mut [i128])
    requires sizes { AreSizes front.now }
    requires fitting { fits choice.now (sizes_in front.now) ≡ true }
    requires room { length left.old ≡ length front.now }
    ensures { left.new ≡ map pos (minus (sizes_in front.now) choice.now) }
{
    for i in 0..front.len() {
        left[i] = less(front[i], choice[i]);
    }
}

/// How many labellings there are of the sizes that remain.
pub fn rest_in(binomials: &Binomials, front: &[i128]) -> u128
    requires few { length front.now ≤ 8 }
    requires sizes { AreSizes front.now }
    requires small { sum (sizes_in front.now) < 2 ^ 64 }
    requires held { IsHeld binomials.now.width (sizes_in front.now) }
    requires fits { number_of_labellings (sizes_in front.now) ≤ MAX }
    ensures { result ≡ number_of_labellings (sizes_in front.now) }
{
    let mut numbers = [0u64; 8];
    let sizes = &mut numbers[..front.len()];
    read_sizes(front, sizes);
    binomials.labellings(sizes, total_of(sizes))
}

/// In how many ways a column's subjects are labelled by a choice: one subject in one way.
pub fn weight_in(binomials: &Binomials, column: u64, choice: &[u64]) -> u128
    requires whole { column ≡ sum choice.now }
    requires held { IsHeld binomials.now.width choice.now }
    requires fits { number_of_labellings choice.now ≤ MAX }
    ensures { result ≡ number_of_labellings choice.now }
{
    if column == 1 {
        1
    } else {
        binomials.labellings(choice, column)
    }
}
