// The measure of the runs test.
ghost use Rattle.std.specs.Prelude.{◌≡◌, ◌+◌, ◌*◌, ◌≤◌, ◌/◌, length, pos, ◌+ℤ◌, slice_index_or, unsigned_abs};
ghost use Rattle.record_reader.specs.declared.TheConstants.{MOST_ROWS};
ghost use Rattle.weights.specs.declared.TheConstants.{MAX};
ghost use Rattle.room_network.specs.Meanings.{AreReached};
ghost use Rattle.label_network.specs.LabelNetwork.{over_rooms};
ghost use Rattle.label_network.specs.Meanings.{sizes_in};
ghost use Rattle.runs_test.specs.RunNetwork.{begins_run, firsts_in, last_in, least_to_come};
ghost use Rattle.runs_test.specs.RunNetwork.{most_after, most_to_come, runs_meaning, runs_outlook};
ghost use Rattle.runs_test.specs.RunNetwork.{runs_so_far, seconds_in};
ghost use Rattle.runs_test.specs.RunSteps.{AreRunNumbers, AreTwoSizes, IsRunning, RunSeat};
ghost use Rattle.runs_test.specs.RunSteps.{least_left, most_left};

use label_network::read_sizes;
use networks::{Interval, Judge, Verdict};
use room_network::Measure;
use weights::{Tail, plus};

/// The runs of labellings of single rows, so many of the first label and so many of the second. A
/// partial is two numbers: the label of the row before, or 2 before the first row, and the runs so
/// far. Its interval adds the least and the greatest number of runs that can still begin.
#[derive(Drop)]
pub struct RunMeasure {
    first: u64,
    second: u64,
    judge: Judge,
    ghost right: { IsRunning first second judge },
}

impl RunMeasure {
    /// The measure of so many rows of the first label and so many of the second.
    pub fn new(first: u64, second: u64, judge: Judge) -> RunMeasure
        requires { IsRunning first second judge }
        ensures { runs_meaning result.first result.second result.judge
            ≡ runs_meaning first second judge }
    {
        RunMeasure {
            first,
            second,
            judge,
        }
    }

    // What is known of a key that is reached. It does nothing.
    #[inline(always)]
    fn seat(&self, _stage: usize, _remaining: &[i128], _partial: &[i128])
        requires { let m = runs_meaning self.now.first self.now.second self.now.judge in
            AreReached (over_rooms m) _stage _remaining.now _partial.now }
        ensures { RunSeat self.now.judge _remaining.now _partial.now }
    {}
}

// The least number of runs that begin after a label, where so many rows are left of each.
fn least_to_come(last: u64, first: u64, second: u64) -> u64
    ensures { result ≡ least_to_come last first second }
{
    let firsts = first.min(1);
    let seconds = second.min(1);
    match last {
        0 => seconds,
        1 => firsts,
        _ => firsts + seconds,
    }
}

// The greatest after a label of which some rows are left, and some of the other.
fn most_after(left: u64, other: u64) -> u64
    requires few { left + other ≤ MOST_ROWS }
    ensures { result ≡ most_after left other }
{
    if left < other {
        2 * left + 1
    } else {
        2 * other
    }
}

// The greatest number of runs that begin after a label.
fn most_to_come(last: u64, first: u64, second: u64) -> u64
    requires few { first + second ≤ MOST_ROWS }
    ensures { result ≡ most_to_come last first second }
{
    match last {
        0 => most_after(first, second),
        1 => most_after(second, first),
        _ if first == second => 2 * first,
        _ => 2 * first.min(second) + 1,
    }
}

// The least and the greatest number of runs that the remaining rows begin after a label.
fn to_come(last: u64, remaining: &[i128]) -> Interval
    requires { AreTwoSizes remaining.now }
    ensures least { let left = sizes_in remaining.now in
        result.low ≡ pos (least_to_come last (firsts_in left) (seconds_in left)) }
    ensures greatest { let left = sizes_in remaining.now in
        result.high ≡ pos (most_to_come last (firsts_in left) (seconds_in left)) }
{
    let mut left = [0u64; 2];
    read_sizes(remaining, &mut left);
    Interval {
        low: signed(least_to_come(last, left[0], left[1])),
        high: signed(most_to_come(last, left[0], left[1])),
    }
}

#[inline(always)]
fn signed(number: u64) -> i128
    ensures { result ≡ pos number }
{
    number as i128
}

// What an outlook says of the label before.
#[inline(always)]
fn after_last(outlook: &[i128], partial: &[i128]) -> Interval
    requires outlook { length outlook.now ≡ 6 }
    requires partial { AreRunNumbers partial.now }
    ensures low { let place = 2 * last_in partial.now in
        result.low ≡ slice_index_or outlook.now place (pos 0) }
    ensures high { let place = 2 * last_in partial.now + 1 in
        result.high ≡ slice_index_or outlook.now place (pos 0) }
{
    let last = partial[0] as usize;
    Interval {
        low: outlook[2 * last],
        high: outlook[2 * last + 1],
    }
}

// The same by what is to come after it.
#[inline(always)]
fn left_after(outlook: &[i128], _remaining: &[i128], partial: &[i128]) -> Interval
    requires outlook { let left = sizes_in _remaining.now in
        outlook.now ≡ runs_outlook (firsts_in left) (seconds_in left) }
    requires partial { AreRunNumbers partial.now }
    ensures low { result.low ≡ pos (least_left _remaining.now partial.now) }
    ensures high { result.high ≡ pos (most_left _remaining.now partial.now) }
{
    after_last(outlook, partial)
}

// The runs so far with those.
#[inline(always)]
fn with_left(partial: &[i128], left: Interval) -> Interval
    requires partial { AreRunNumbers partial.now }
    requires low { unsigned_abs left.low ≤ MAX / 2 }
    requires high { unsigned_abs left.high ≤ MAX / 2 }
    ensures low { result.low ≡ runs_so_far partial.now +ℤ left.low }
    ensures high { result.high ≡ runs_so_far partial.now +ℤ left.high }
{
    let so_far = runs_so_far(partial);
    Interval {
        low: plus(so_far, left.low),
        high: plus(so_far, left.high),
    }
}

#[inline(always)]
fn runs_so_far(partial: &[i128]) -> i128
    requires { AreRunNumbers partial.now }
    ensures { result ≡ runs_so_far partial.now }
{
    partial[1]
}

/// How many runs a label begins after another: one where it differs.
#[inline(always)]
pub(crate) fn begins_run(last: u64, label: u64) -> u64
    ensures { result ≡ begins_run last label }
{
    if last == label { 0 } else { 1 }
}

// The runs so far with those of the next row.
#[inline(always)]
fn with_label(partial: &[i128], label: u64) -> i128
    requires { AreRunNumbers partial.now }
    ensures { let begun = begins_run (last_in partial.now) label in
        result ≡ (runs_so_far partial.now +ℤ pos begun) }
{
    if partial[0] == label as i128 {
        partial[1]
    } else {
        plus(partial[1], 1)
    }
}

impl Measure for RunMeasure {
    ghost meaning = { λ m. over_rooms (runs_meaning m.first m.second m.judge) };

    fn slots(&self) -> usize {
        2
    }

    fn step_width(&self) -> usize {
        0
    }

    fn outlook_width(&self) -> usize {
        6
    }

    fn first(&self, partial: &mut [i128]) {
        partial[0] = 2;
        partial[1] = 0;
    }

    fn step(&self, _stage: usize, _remaining: &[i128], _choice: &[u64], _step: &mut [i128]) {}

    #[inline(always)]
    fn follow(
        &self,
        _stage: usize,
        _remaining: &[i128],
        choice: &[u64],
        _step: &[i128],
        partial: &[i128],
        next: &mut [i128],
    ) {
        let label = choice[1];
        next[0] = signed(label);
        next[1] = with_label(partial, label);
    }

    fn outlook(&self, _stage: usize, remaining: &[i128], outlook: &mut [i128]) {
        let first = to_come(0, remaining);
        let second = to_come(1, remaining);
        let none = to_come(2, remaining);
        outlook[0] = first.low;
        outlook[1] = first.high;
        outlook[2] = second.low;
        outlook[3] = second.high;
        outlook[4] = none.low;
        outlook[5] = none.high;
    }

    #[inline(always)]
    fn verdict_by(
        &self,
        stage: usize,
        remaining: &[i128],
        outlook: &[i128],
        partial: &[i128],
        tail: Tail,
    ) -> Verdict {
        self.seat(stage, remaining, partial);
        let left = left_after(outlook, remaining, partial);
        self.judge.verdict(tail, with_left(partial, left))
    }

    #[inline(always)]
    fn value(&self, partial: &[i128]) -> i128 {
        partial[1]
    }
}
