// Kendall's K of subjects, pair by pair.
ghost use Rattle.std.specs.Prelude.{◌≡◌, ◌≤◌, length, int_lt, if◌then◌else◌};
ghost use Rattle.sample_reader.specs.PooledSample.{paired_subjects};
ghost use Rattle.kendall_test.specs.Kendall.{kendall_statistic, over_pairs};
ghost use Rattle.kendall_test.specs.KendallSteps.{ordered, pairs_with};

// What a pair adds.
fn one_pair(concordant: bool, first: i128, other: i128, second: u8, other_second: u8) -> u64
    ensures value { let one = ordered concordant second other_second in
        result ≡ (if int_lt first other then one else 0) }
    ensures few { result ≤ 1 }
{
    let ordered = if concordant {
        second < other_second
    } else {
        other_second < second
    };
    if first < other && ordered { 1 } else { 0 }
}

// What a subject adds with those that have a greater first value.
fn pairs_with(concordant: bool, first: i128, second: u8, firsts: &[i128], seconds: &[u8]) -> u64
    requires long { length seconds.now ≡ length firsts.now }
    requires few { length firsts.now ≤ 120 }
    ensures sum { let subjects = paired_subjects firsts.now seconds.now in
        result ≡ pairs_with concordant first second subjects }
    ensures few { result ≤ length firsts.now }
{
    let mut pairs: u64 = 0;
    for i in 0..firsts.len() {
        pairs += one_pair(concordant, first, firsts[i], second, seconds[i]);
    }
    pairs
}

// What all subjects add.
fn pairs_over(concordant: bool, firsts: &[i128], seconds: &[u8]) -> u64
    requires long { length seconds.now ≡ length firsts.now }
    requires few { length firsts.now ≤ 120 }
    ensures sum { let subjects = paired_subjects firsts.now seconds.now in
        result ≡ over_pairs (ordered concordant) subjects subjects }
    ensures few { result ≤ 14400 }
{
    let mut pairs: u64 = 0;
    for i in 0..firsts.len() {
        pairs += pairs_with(concordant, firsts[i], seconds[i], firsts, seconds);
    }
    pairs
}

/// Kendall's K of subjects with these first values and these places of their second values.
pub(crate) fn kendall_sum(firsts: &[i128], seconds: &[u8]) -> i128
    requires long { length seconds.now ≡ length firsts.now }
    requires few { length firsts.now ≤ 120 }
    ensures { result ≡ kendall_statistic firsts.now seconds.now }
{
    let concordant = pairs_over(true, firsts, seconds);
    let discordant = pairs_over(false, firsts, seconds);
    concordant as i128 - discordant as i128
}
