// At which place the limits stand.
ghost use Rattle.std.specs.Prelude.{◌≡◌, ◌+◌, ◌*◌, ◌/◌, ◌<◌, ◌≤◌};
ghost use Rattle.weights.specs.Labellings.{number_of_labellings};
ghost use Rattle.weights.specs.declared.TheConstants.{MAX};
ghost use Rattle.record_reader.specs.declared.TheConstants.{MOST_ROWS};
ghost use Rattle.shift_limits.specs.LaterPairs.{greatest_to, labellings_below, misses_at_most};
ghost use Rattle.weights.specs.Odds.{IsMiss};
ghost use Rattle.shift_limits.specs.LimitSteps.{AreRankLines, is_within, rank_sum};

use distribution::below;
use networks::Spread;
use weights::Odds;

// The doubled rank sum of so many subjects of the second sample, where the later place of so many
// pairs is one of theirs: without ties it is twice the pairs and n(n + 1).
fn rank_sum(second: u64, pairs: u64) -> i128
    requires { second ≤ MOST_ROWS }
    ensures { result ≡ rank_sum second pairs }
{
    2 * i128::from(pairs) + i128::from(second) * (i128::from(second) + 1)
}

/// How many labellings have fewer than so many pairs of places with the later one of the second
/// sample.
pub(crate) fn labellings_below(lines: &Spread, sizes: &[u64], pairs: u64) -> u128
    requires { AreRankLines sizes.now lines.now }
    ensures { result ≡ labellings_below sizes.now pairs }
{
    if pairs == 0 {
        return 0;
    }
    below(lines, rank_sum(sizes[1], pairs - 1))
}

// The greatest number of which twice is at most this part of the total. The product of the part and
// the total may pass 128 bits, so the total is divided first.
fn most_missed(total: u128, miss: Odds) -> u128
    requires miss { IsMiss miss }
    requires fits { total ≤ MAX }
    ensures { result ≡ miss.above * total / (2 * miss.below) }
{
    let above = miss.above as u128;
    let parts = 2 * miss.below as u128;
    above * (total / parts) + above * (total % parts) / parts
}

// The greatest number of pairs with at most so many labellings below it, by halving.
fn greatest_place(lines: &Spread, sizes: &[u64], most: u128, pairs: u64) -> u64
    requires { AreRankLines sizes.now lines.now }
    ensures { result ≡ greatest_to (is_within sizes.now most) pairs }
{
    let mut low = 0;
    let mut high = pairs;
    while low < high {
        let middle = high - (high - low) / 2;
        if labellings_below(lines, sizes, middle) <= most {
            low = middle;
        } else {
            high = middle - 1;
        }
    }
    low
}

/// The greatest place up to so many pairs at which limits miss at most this part of the total.
pub(crate) fn place_of_limits(
    lines: &Spread,
    sizes: &[u64],
    total: u128,
    miss: Odds,
    pairs: u64,
) -> u64
    requires lines { AreRankLines sizes.now lines.now }
    requires total { total ≡ number_of_labellings sizes.now }
    requires fits { total ≤ MAX }
    requires miss { IsMiss miss }
    ensures { result ≡ greatest_to (misses_at_most sizes.now miss) pairs }
{
    greatest_place(lines, sizes, most_missed(total, miss), pairs)
}
