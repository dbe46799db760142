// The measure of the test of Kruskal and Wallis with the sums seen from their middle.
ghost use Rattle.std.specs.Prelude.{◌≡◌, ◌+◌, ◌*◌, ◌^◌, ◌<◌, ◌≤◌, ◌&&◌, ◌+ℤ◌, length, min, nat_lt, pos, true, unsigned_abs};
ghost use Rattle.std.specs.List.{sum};
ghost use Rattle.weights.specs.declared.TheConstants.{MAX};
ghost use Rattle.weights.specs.Numbers.{absolute_sum};
ghost use Rattle.completion_bounds.specs.Boxes.{greatest_squares, least_squares};
ghost use Rattle.later_scores.specs.LaterSums.{subjects};
ghost use Rattle.label_network.specs.LabelNetwork.{over_rooms};
ghost use Rattle.kruskal_wallis.specs.CentredSums.{AreParts, HasNarrowBoxes, IsCentred, centred_meaning, middle_squares};
ghost use Rattle.kruskal_wallis.specs.RankSumSteps.{AreAddable, AreNarrow};
ghost use Rattle.symmetry_reduction.specs.GroupSums.{AreHeld};
ghost use Rattle.networks.specs.PartialSums.{plus};
ghost use Rattle.networks.specs.Judged.{rule_in, verdict_of};

use crate::rank_sums::{RankSums, plus_each, score_parts};
use completion_bounds::narrow_squares;
use networks::{Interval, Verdict};
use room_network::Measure;
use weights::Tail;

/// The measure of [`RankSums`], whose partials it has, with narrower intervals: the sum of each
/// group is seen from so many times a middle score as the group has subjects, where its square is
/// small.
#[derive(Drop)]
pub struct CentredSums {
    sums: RankSums,
    middle: u128,
    base: u128,
    // Whether all boxes have ends of 32 bits, and squared sums of 127.
    narrow: bool,
    ghost right: { IsCentred sums.factors.items sums.bound base middle sums.later.scores.items
        sums.later.columns.items sums.rows.items },
    ghost boxes: { narrow ≡ true → HasNarrowBoxes sums.bound sums.later.scores.items
        sums.later.columns.items },
}

// Whether all boxes are narrow: all scores together are less than 32 bits with a sign hold, and no
// eight of the greatest squared sums come to 2^127.
fn has_narrow_boxes(all: u128, bound: u128) -> bool
    ensures { result ≡ (nat_lt all (2 ^ 31) && nat_lt bound (2 ^ 124)) }
{
    all < 1 << 31 && bound < 1 << 124
}

// A sum with what it can still get, seen from the middle.
#[inline(always)]
fn narrow_plus(sum: i128, added: i128) -> i32
    requires { unsigned_abs (sum +ℤ added) < 2 ^ 31 }
    ensures { result ≡ sum +ℤ added }
{
    (sum + added) as i32
}

// Between which sums groups end, written into these numbers.
#[inline(always)]
fn ends<'a>(partial: &[i128], added: &[i128], numbers: &'a mut [i32; 8]) -> &'a [i32]
    requires few { length partial.now ≤ 8 }
    requires narrow { AreNarrow partial.now added.now }
    requires one_each { length added.now ≡ length partial.now }
    ensures { result.now ≡ plus partial.now added.now }
{
    let ends = &mut numbers[..partial.len()];
    for i in 0..partial.len() {
        ends[i] = narrow_plus(partial[i], added[i]);
    }
    ends
}

// How much more the factored squares of the sums are than those of what is seen.
fn middle_squares(multiple: u128, middle: u128, all: u128, count: u64) -> u128
    requires below { middle * count ≤ all }
    requires fits { multiple * (all * all) ≤ MAX }
    requires some { 1 ≤ multiple }
    requires any { 1 ≤ count }
    ensures is { result ≡ middle_squares multiple middle all count }
    ensures within { result ≤ multiple * (all * all) }
{
    multiple * (middle * (2 * all - middle * count as u128))
}

impl CentredSums {
    /// The sums of a measure of so many subjects, seen from their middle. No score is negative,
    /// all scores come to `all`, and the size of each group times its factor is `multiple`.
    pub fn new(sums: RankSums, multiple: u128, all: u128, count: u64) -> CentredSums
        requires count { count ≡ sum sums.rows.items }
        requires any { 1 ≤ count }
        requires some { 1 ≤ multiple }
        requires held { AreHeld sums.later.scores.items }
        requires parts { AreParts multiple sums.factors.items sums.rows.items }
        requires all { all
            ≡ absolute_sum (subjects sums.later.scores.items sums.later.columns.items) }
        requires bound { multiple * (all * all) ≤ sums.bound }
        ensures { result.sums ≡ sums }
    {
        let middle = all / count as u128;
        CentredSums {
            middle,
            base: middle_squares(multiple, middle, all, count),
            narrow: has_narrow_boxes(all, sums.bound()),
            sums,
        }
    }

    // A sum of squares, seen from the middle, as one of the sums themselves: no more than the
    // bound.
    #[inline(always)]
    fn raised(&self, squares: u128) -> i128
        requires { squares < 2 ^ 127 }
        ensures { result ≡ pos (min (self.now.base + squares) self.now.sums.bound) }
    {
        (self.base + squares).min(self.sums.bound()) as i128
    }

    // What is known of a key that ends between these sums of squares, seen from the middle.
    #[inline(always)]
    fn judged(&self, least: u128, greatest: u128, tail: Tail) -> Verdict
        requires least { least < 2 ^ 127 }
        requires greatest { greatest < 2 ^ 127 }
        ensures { let bound = self.now.sums.bound in
            let low = pos (min (self.now.base + least) bound) in
            let high = pos (min (self.now.base + greatest) bound) in
            result ≡ verdict_of (rule_in self.now.sums.judge tail) low high }
    {
        let interval = Interval {
            low: self.raised(least),
            high: self.raised(greatest),
        };
        self.sums.judged(interval, tail)
    }

    // The same of a key whose groups end between these sums, whatever the numbers. Apart, so that
    // the steps for a narrow box stay few where they are inlined.
    #[inline(never)]
    fn wide_verdict(
        &self,
        least: &[i128],
        greatest: &[i128],
        partial: &[i128],
        tail: Tail,
    ) -> Verdict
        requires one_each { length partial.now ≡ length self.now.sums.rows.items }
        requires least { AreAddable partial.now least.now }
        requires greatest { AreAddable partial.now greatest.now }
        requires as_many { length least.now ≡ length partial.now }
        requires and_as_many { length greatest.now ≡ length partial.now }
        ensures { let lows = plus partial.now least.now in
            let highs = plus partial.now greatest.now in
            let factors = self.now.sums.factors.items in
            let bound = self.now.sums.bound in
            let low = pos (min (self.now.base + least_squares lows highs factors) bound) in
            let high = pos (min (self.now.base + greatest_squares lows highs factors) bound) in
            result ≡ verdict_of (rule_in self.now.sums.judge tail) low high }
    {
        let seen = self.sums.interval(least, greatest, partial);
        self.judged(seen.low as u128, seen.high as u128, tail)
    }
}

impl Measure for CentredSums {
    ghost meaning = { λ m. over_rooms
        (centred_meaning m.sums.factors.items m.sums.bound m.base m.middle
        m.sums.later.scores.items m.sums.later.columns.items m.sums.rows.items m.sums.judge) };

    fn slots(&self) -> usize {
        self.sums.slots()
    }

    fn step_width(&self) -> usize {
        self.sums.step_width()
    }

    fn outlook_width(&self) -> usize {
        self.sums.outlook_width()
    }

    fn first(&self, partial: &mut [i128]) {
        self.sums.first(partial);
    }

    fn step(&self, stage: usize, remaining: &[i128], choice: &[u64], step: &mut [i128]) {
        self.sums.step(stage, remaining, choice, step);
    }

    #[inline(always)]
    fn follow(
        &self,
        stage: usize,
        remaining: &[i128],
        choice: &[u64],
        step: &[i128],
        partial: &[i128],
        next: &mut [i128],
    ) {
        self.sums
            .follow(stage, remaining, choice, step, partial, next);
    }

    // What the groups can still get, and what the middle takes from it.
    fn outlook(&self, stage: usize, remaining: &[i128], outlook: &mut [i128]) {
        let mut numbers = [0i128; 16];
        let parts = &mut numbers[..outlook.len()];
        self.sums.outlook(stage, remaining, parts);
        let mut shifts = [0i128; 8];
        let taken = &mut shifts[..remaining.len()];
        score_parts(-(self.middle as i128), self.sums.rows(), taken);
        let (least, greatest) = parts.split_at(remaining.len());
        let (lows, highs) = outlook.split_at_mut(remaining.len());
        plus_each(least, taken, lows);
        plus_each(greatest, taken, highs);
    }

    #[inline(always)]
    fn verdict_by(
        &self,
        _stage: usize,
        _remaining: &[i128],
        outlook: &[i128],
        partial: &[i128],
        tail: Tail,
    ) -> Verdict {
        let (least, greatest) = outlook.split_at(partial.len());
        if !self.narrow {
            return self.wide_verdict(least, greatest, partial, tail);
        }
        let mut numbers = [0i32; 8];
        let lows = ends(partial, least, &mut numbers);
        let mut others = [0i32; 8];
        let highs = ends(partial, greatest, &mut others);
        let (low, high) = narrow_squares(lows, highs, self.sums.factors());
        self.judged(low, high, tail)
    }

    fn value(&self, partial: &[i128]) -> i128 {
        self.sums.value(partial)
    }
}
