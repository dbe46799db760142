// The measure of the test of Kruskal and Wallis.
ghost use Rattle.std.specs.Prelude.{◌≡◌, ◌+◌, ◌-◌, ◌*◌, ◌^◌, ◌<◌, ◌≤◌, [], ◌∷◌, ◌++◌, length, pos, unsigned_abs, slice_index, ◌+ℤ◌, ◌*ℤ◌, min, IfOk};
ghost use Rattle.std.specs.List.{Contains, sum};
ghost use Rattle.weights.specs.declared.TheConstants.{MAX};
ghost use Rattle.completion_bounds.specs.Boxes.{greatest_squares, least_squares};
ghost use Rattle.later_scores.specs.LaterSums.{later_scores};
ghost use Rattle.label_network.specs.Linear.{score_of};
ghost use Rattle.room_network.specs.Meanings.{IsRoom};
ghost use Rattle.label_network.specs.LabelNetwork.{over_rooms};
ghost use Rattle.label_network.specs.Meanings.{sizes_in};
ghost use Rattle.networks.specs.Judged.{rule_in, verdict_of};
ghost use Rattle.networks.specs.PartialSums.{plus};
ghost use Rattle.kruskal_wallis.specs.RankSums.{greatest_parts, least_parts, score_parts, squares_meaning};
ghost use Rattle.kruskal_wallis.specs.RankSumSteps.{AreAddable, AreEnough, AreRankSums, AreTabled, IsSquaring, parts_of};

use crate::group_sums::squares_of;
use completion_bounds::box_bounds;
use label_network::{End, LaterScores, read_sizes};
use networks::{Interval, Judge, Verdict};
use room_network::Measure;
use std::alloc::Global;
use weights::{NoMemory, Tail, count_times, plus};

/// The factored sum of the groups' squared sums of scores. A partial has the sum of each group so
/// far. Its interval is that of the box of the sums that the groups can come to, each with the
/// least and with the greatest of the later scores.
#[derive(Drop)]
pub struct RankSums {
    rows: Vec<u64>,
    factors: Vec<u128>,
    bound: u128,
    later: LaterScores,
    judge: Judge,
    ghost right: { AreRankSums factors.items bound later.scores.items later.columns.items rows.items
        judge later.width },
}

// How many scores a table has to hold: of each group and the others together, one has no more.
fn most_of(sizes: &[u64], all: u64) -> u64
    requires { all ≡ sum sizes.now }
    ensures within { result ≤ all }
    ensures enough { AreEnough result sizes.now }
{
    let mut most: u64 = 0;
    for i in 0..sizes.len() {
        most = most.max(sizes[i].min(all - sizes[i]));
    }
    most
}

// Writes what subjects with one score add to each group.
#[inline(always)]
pub(crate) fn score_parts(score: i128, counts: &[u64], parts: &mut [i128])
    requires fits { sum counts.now * unsigned_abs score ≤ MAX }
    requires room { length parts.old ≡ length counts.now }
    ensures { parts.new ≡ score_parts score counts.now }
{
    for i in 0..counts.len() {
        parts[i] = count_times(counts[i], score);
    }
}

// Writes sums with what is added to each.
#[inline(always)]
pub(crate) fn plus_each(partial: &[i128], added: &[i128], next: &mut [i128])
    requires fits { AreAddable partial.now added.now }
    requires one_each { length added.now ≡ length partial.now }
    requires room { length next.old ≡ length partial.now }
    ensures { next.new ≡ plus partial.now added.now }
{
    for i in 0..partial.len() {
        next[i] = plus(partial[i], added[i]);
    }
}

// Writes the sums of a stage's later scores, least or greatest, that groups of these sizes can get.
fn write_parts(end: End, later: &LaterScores, stage: usize, sizes: &[u64], parts: &mut [i128])
    requires stage { stage ≤ length later.now.columns.items }
    requires held { let scores =
        later_scores later.now.scores.items later.now.columns.items stage in
        AreTabled later.now.width scores sizes.now }
    requires room { length parts.old ≡ length sizes.now }
    ensures { let scores = later_scores later.now.scores.items later.now.columns.items stage in
        parts.new ≡ parts_of end scores sizes.now }
{
    for i in 0..sizes.len() {
        parts[i] = later.part(end, stage, sizes[i]);
    }
}

impl RankSums {
    /// The measure of so many subjects in groups with these factors, bound and sizes, over columns
    /// of these scores and sizes.
    pub fn new(
        alloc: Global,
        factors: &[u128],
        bound: u128,
        scores: &[i128],
        columns: &[u64],
        rows: &[u64],
        subjects: u64,
        judge: Judge,
    ) -> Result<RankSums, NoMemory>
        requires subjects { subjects ≡ sum rows.now }
        requires fits { IsSquaring factors.now bound scores.now columns.now rows.now judge }
        ensures factors { IfOk result (λ m. m.factors.items ≡ factors.now) }
        ensures bound { IfOk result (λ m. m.bound ≡ bound) }
        ensures scores { IfOk result (λ m. m.later.scores.items ≡ scores.now) }
        ensures columns { IfOk result (λ m. m.later.columns.items ≡ columns.now) }
        ensures rows { IfOk result (λ m. m.rows.items ≡ rows.now) }
        ensures meaning { IfOk result (λ m.
            squares_meaning m.factors.items m.bound m.later.scores.items m.later.columns.items
            m.rows.items m.judge
            ≡ squares_meaning factors.now bound scores.now columns.now rows.now
            judge) }
    {
        let most = most_of(rows, subjects);
        Ok(RankSums {
            rows: Vec::from_slice(alloc, rows)?,
            factors: Vec::from_slice(alloc, factors)?,
            bound,
            later: LaterScores::new(alloc, scores, columns, most as usize)?,
            judge,
        })
    }

    /// What no value passes.
    #[inline(always)]
    pub(crate) fn bound(&self) -> u128
        ensures { result ≡ self.now.bound }
    {
        self.bound
    }

    // Writes what the groups can still get, at least and at most.
    fn parts(&self, stage: usize, remaining: &[i128], least: &mut [i128], greatest: &mut [i128])
        requires sizes { let m = squares_meaning self.now.factors.items self.now.bound
            self.now.later.scores.items self.now.later.columns.items self.now.rows.items
            self.now.judge in
            IsRoom (over_rooms m) stage remaining.now }
        requires least { length least.old ≡ length remaining.now }
        requires greatest { length greatest.old ≡ length remaining.now }
        ensures least { let later =
            later_scores self.now.later.scores.items self.now.later.columns.items stage in
            least.new ≡ least_parts later (sizes_in remaining.now) }
        ensures greatest { let later =
            later_scores self.now.later.scores.items self.now.later.columns.items stage in
            greatest.new ≡ greatest_parts later (sizes_in remaining.now) }
    {
        let mut numbers = [0u64; 8];
        let sizes = &mut numbers[..remaining.len()];
        read_sizes(remaining, sizes);
        write_parts(End::Least, &self.later, stage, sizes, least);
        write_parts(End::Greatest, &self.later, stage, sizes, greatest);
    }

    /// Between which sums of squares a key ends, whose groups can come to sums between these.
    #[inline(always)]
    pub(crate) fn interval(&self, least: &[i128], greatest: &[i128], partial: &[i128]) -> Interval
        requires one_each { length partial.now ≡ length self.now.rows.items }
        requires few_rows { length self.now.rows.items ≤ 8 }
        requires factors { length self.now.factors.items ≡ length self.now.rows.items }
        requires fits { self.now.bound ≤ MAX }
        requires least { AreAddable partial.now least.now }
        requires greatest { AreAddable partial.now greatest.now }
        requires as_many { length least.now ≡ length partial.now }
        requires and_as_many { length greatest.now ≡ length partial.now }
        ensures low { let lows = plus partial.now least.now in
            let highs = plus partial.now greatest.now in
            result.low ≡ pos (min (least_squares lows highs self.now.factors.items)
            self.now.bound) }
        ensures high { let lows = plus partial.now least.now in
            let highs = plus partial.now greatest.now in
            result.high ≡ pos (min (greatest_squares lows highs self.now.factors.items)
            self.now.bound) }
    {
        let mut low_numbers = [0i128; 8];
        let mut high_numbers = [0i128; 8];
        let lows = &mut low_numbers[..partial.len()];
        let highs = &mut high_numbers[..partial.len()];
        plus_each(partial, least, lows);
        plus_each(partial, greatest, highs);
        let (low, high) = box_bounds(lows, highs, self.factors.as_slice(), self.bound);
        Interval {
            low: low as i128,
            high: high as i128,
        }
    }

    /// What is known of a key that ends between these.
    #[inline(always)]
    pub(crate) fn judged(&self, interval: Interval, tail: Tail) -> Verdict
        ensures { result
            ≡ verdict_of (rule_in self.now.judge tail) interval.low interval.high }
    {
        self.judge.verdict(tail, interval)
    }

    /// The groups' sizes.
    pub(crate) fn rows(&self) -> &[u64]
        ensures { result.now ≡ self.now.rows.items }
    {
        self.rows.as_slice()
    }

    /// The factors of the groups' squares.
    #[inline(always)]
    pub(crate) fn factors(&self) -> &[u128]
        ensures { result.now ≡ self.now.factors.items }
    {
        self.factors.as_slice()
    }
}

impl Measure for RankSums {
    ghost meaning = { λ m. over_rooms
        (squares_meaning m.factors.items m.bound m.later.scores.items m.later.columns.items
        m.rows.items m.judge) };

    fn slots(&self) -> usize {
        self.rows.len()
    }

    fn step_width(&self) -> usize {
        self.rows.len()
    }

    fn outlook_width(&self) -> usize {
        2 * self.rows.len()
    }

    fn first(&self, partial: &mut [i128]) {
        partial.fill(0);
    }

    fn step(&self, stage: usize, _remaining: &[i128], choice: &[u64], step: &mut [i128]) {
        score_parts(self.later.score(stage), choice, step);
    }

    #[inline(always)]
    fn follow(
        &self,
        _stage: usize,
        _remaining: &[i128],
        _choice: &[u64],
        step: &[i128],
        partial: &[i128],
        next: &mut [i128],
    ) {
        plus_each(partial, step, next);
    }

    fn outlook(&self, stage: usize, remaining: &[i128], outlook: &mut [i128]) {
        let (least, greatest) = outlook.split_at_mut(remaining.len());
        self.parts(stage, remaining, least, greatest);
    }

    #[inline(always)]
    fn verdict_by(
        &self,
        _stage: usize,
        _remaining: &[i128],
        outlook: &[i128],
        partial: &[i128],
        tail: Tail,
    ) -> Verdict {
        let (least, greatest) = outlook.split_at(partial.len());
        let interval = self.interval(least, greatest, partial);
        self.judge.verdict(tail, interval)
    }

    fn value(&self, partial: &[i128]) -> i128 {
        squares_of(partial, self.factors.as_slice(), self.bound)
    }
}
