// What the remaining sizes of rows can add, at least and at most.
ghost use Rattle.std.specs.Prelude.{◌≡◌, ◌+◌, ◌*◌, ◌^◌, ◌<◌, ◌≤◌, length, get_or, unsigned_abs, ◌+ℤ◌, ◌-ℤ◌, ◌*ℤ◌};
ghost use Rattle.std.specs.List.{sum};
ghost use Rattle.later_scores.specs.LaterSums.{later_scores};
ghost use Rattle.label_network.specs.Meanings.{sizes_in};
ghost use Rattle.weights.specs.Numbers.{absolute_sum};
ghost use Rattle.label_network.specs.LinearSteps.{picked, least_added, greatest_added, AreAddable, ArePlaces};

use later_scores::LaterScores;
use networks::Interval;

// Adds what one row's score more than the row before gives on a sum of later scores.
#[inline(always)]
fn add_step(sum: i128, before: i128, here: i128, later: i128) -> i128
    requires step { unsigned_abs (here -ℤ before) < 2 ^ 127 }
    requires small { unsigned_abs sum + unsigned_abs (here -ℤ before) * unsigned_abs later
        < 2 ^ 127 }
    ensures { result ≡ sum +ℤ ((here -ℤ before) *ℤ later) }
{
    let step = here - before;
    let product = step * later;
    sum + product
}

// The size that remains of the row at a place of an order.
#[inline(always)]
fn size_at(order: &[usize], remaining: &[i128], place: usize) -> u64
    requires place { place < length order.now }
    requires places { ArePlaces order.now remaining.now }
    ensures { result ≡ get_or (picked order.now (sizes_in remaining.now)) place 0 }
{
    remaining[order[place]] as u64
}

// Adds what one row's score more than the row before gives on both ends.
#[inline(always)]
fn add_steps(sums: Interval, before: i128, here: i128, later: Interval) -> Interval
    requires step { unsigned_abs (here -ℤ before) < 2 ^ 127 }
    requires small_low { unsigned_abs sums.low
        + unsigned_abs (here -ℤ before) * unsigned_abs later.low < 2 ^ 127 }
    requires small_high { unsigned_abs sums.high
        + unsigned_abs (here -ℤ before) * unsigned_abs later.high < 2 ^ 127 }
    ensures low { result.low ≡ sums.low +ℤ ((here -ℤ before) *ℤ later.low) }
    ensures high { result.high ≡ sums.high +ℤ ((here -ℤ before) *ℤ later.high) }
{
    Interval {
        low: add_step(sums.low, before, here, later.low),
        high: add_step(sums.high, before, here, later.high),
    }
}

/// The least and the greatest sum of products that rows with these scores and remaining sizes can
/// add, with the later scores of a stage.
#[inline(always)]
pub(crate) fn added(
    tables: &LaterScores,
    rows: &[i128],
    order: &[usize],
    stage: usize,
    remaining: &[i128],
) -> Interval
    requires stage { stage ≤ length tables.now.columns.items }
    requires addable { let later =
        later_scores tables.now.scores.items tables.now.columns.items stage in
        AreAddable rows.now order.now tables.now.width remaining.now later }
    ensures low { let later =
        later_scores tables.now.scores.items tables.now.columns.items stage in
        result.low ≡ least_added rows.now (picked order.now (sizes_in remaining.now)) later }
    ensures high { let later =
        later_scores tables.now.scores.items tables.now.columns.items stage in
        result.high
        ≡ greatest_added rows.now (picked order.now (sizes_in remaining.now)) later }
{
    if rows.len() == 0 {
        return Interval { low: 0, high: 0 };
    }
    let mut left = tables.count(stage);
    let total = tables.total(stage);
    let first = add_step(0, 0, rows[0], total);
    let mut sums = Interval {
        low: first,
        high: first,
    };
    for i in 1..rows.len() {
        left -= size_at(order, remaining, i - 1);
        let ends = tables.ends(stage, left);
        sums = add_steps(sums, rows[i - 1], rows[i], ends);
    }
    sums
}
