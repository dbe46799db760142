// The least and the greatest sums of some of the later subjects' scores, in tables.
ghost use Rattle.std.specs.Prelude.{◌≡◌, ◌+◌, ◌-◌, ◌*◌, ◌^◌, ◌<◌, ◌≤◌, ◌⊎◌, ℤ, pos, List, ◌∷◌, ◌++◌, length, replicate, slice_index_or, IfOk, if◌then◌else◌};
ghost use Rattle.std.specs.List.{sum};
ghost use Rattle.std.specs.Int.{int_min, int_max};
ghost use Rattle.later_scores.specs.LaterSums.{total_score, later_scores, part_sum, least_sum, greatest_sum};
ghost use Rattle.weights.specs.Numbers.{absolute_sum};
ghost use Rattle.later_scores.specs.LaterTables.{IsLater, IsPartTable, IsTabled};
ghost use Rattle.later_scores.specs.LaterSteps.{IsRow, better_of, other_end};

use crate::ends::{End, chosen, other};
use networks::Interval;
use std::alloc::Global;
use weights::{NoMemory, with_units};

/// Turns the sums of some later scores into those with one score more.
fn add_to_row(end: End, row: &mut [i128], before: u64, score: i128)
    ghost scores: { List ℤ }
    requires count { before ≡ length scores }
    requires row { IsRow (better_of end) scores row.old }
    requires small { absolute_sum (score ∷ scores) < 2 ^ 127 }
    ensures { IsRow (better_of end) (score ∷ scores) row.new }
{
    let mut j = row.len();
    while j > 1 {
        j -= 1;
        let enough = j as u64 <= before;
        row[j] = chosen(end, row[j - 1] + score, row[j], enough);
    }
}

/// Turns them into those with so many equal scores more. As many of these as the row has places
/// tell all, and the others change nothing.
fn add_units(end: End, row: &mut [i128], before: u64, count: u64, score: i128)
    ghost scores: { List ℤ }
    requires count { before ≡ length scores }
    requires row { IsRow (better_of end) scores row.old }
    requires few { before + count < 2 ^ 64 }
    requires small { absolute_sum (replicate count score ++ scores) < 2 ^ 127 }
    ensures { IsRow (better_of end) (replicate count score ++ scores) row.new }
{
    let telling = count.min(row.len() as u64);
    for i in 0..telling {
        add_to_row(end, row, before + i, score);
    }
}

/// Adds the subjects of a column to both rows, and gives the new total.
fn add_column(
    low: &mut [i128],
    high: &mut [i128],
    before: u64,
    total: i128,
    count: u64,
    score: i128,
) -> i128
    ghost scores: { List ℤ }
    requires count { before ≡ length scores }
    requires low { IsRow int_min scores low.old }
    requires high { IsRow int_max scores high.old }
    requires total { total ≡ total_score scores }
    requires few { before + count < 2 ^ 64 }
    requires small { absolute_sum (replicate count score ++ scores) < 2 ^ 127 }
    ensures low { IsRow int_min (replicate count score ++ scores) low.new }
    ensures high { IsRow int_max (replicate count score ++ scores) high.new }
    ensures total { result ≡ total_score (replicate count score ++ scores) }
{
    add_units(End::Least, low, before, count, score);
    add_units(End::Greatest, high, before, count, score);
    with_units(total, score, count)
}

/// Adds the subjects of the column of a stage to both rows, and gives the new total.
fn add_stage(
    scores: &[i128],
    columns: &[u64],
    stage: usize,
    low: &mut [i128],
    high: &mut [i128],
    before: u64,
    total: i128,
) -> i128
    ghost rest: { List ℤ }
    requires stage { stage < length columns.now }
    requires long { length scores.now ≡ length columns.now }
    requires rest_is { rest ≡ later_scores scores.now columns.now (stage + 1) }
    requires count { before ≡ length rest }
    requires low { IsRow int_min rest low.old }
    requires high { IsRow int_max rest high.old }
    requires total { total ≡ total_score rest }
    requires few { sum columns.now < 2 ^ 64 }
    requires small { absolute_sum (later_scores scores.now columns.now 0) < 2 ^ 127 }
    ensures low { IsRow int_min (later_scores scores.now columns.now stage) low.new }
    ensures high { IsRow int_max (later_scores scores.now columns.now stage) high.new }
    ensures total { result ≡ total_score (later_scores scores.now columns.now stage) }
{
    add_column(low, high, before, total, columns[stage], scores[stage])
}

/// At each stage, the sums of the least and of the greatest scores of the later subjects, their
/// total and their number, in tables of (stages + 1) rows. The stage after the last column has no
/// later subjects.
#[derive(Drop)]
pub struct LaterScores {
    scores: Vec<i128>,
    columns: Vec<u64>,
    width: usize,
    least: Vec<i128>,
    greatest: Vec<i128>,
    totals: Vec<i128>,
    counts: Vec<u64>,
    ghost right: { IsLater scores.items columns.items width
        least.items greatest.items totals.items counts.items },
}

impl LaterScores {
    /// The tables for columns of these scores and numbers of subjects. They hold the sums of up to
    /// `most` scores, and with them those of all but up to `most`.
    pub fn new(
        alloc: Global,
        scores: &[i128],
        columns: &[u64],
        most: usize,
    ) -> Result<LaterScores, NoMemory>
        requires long { length scores.now ≡ length columns.now }
        requires most { most + 1 < 2 ^ 64 }
        requires few { sum columns.now < 2 ^ 64 }
        requires small { absolute_sum (later_scores scores.now columns.now 0) < 2 ^ 127 }
        ensures scores { IfOk result (λ t. t.scores.items ≡ scores.now) }
        ensures columns { IfOk result (λ t. t.columns.items ≡ columns.now) }
        ensures width { IfOk result (λ t. t.width ≡ most + 1) }
    {
        let width = most + 1;
        let own_scores = Vec::from_slice(alloc, scores)?;
        let own_columns = Vec::from_slice(alloc, columns)?;
        let mut low_row = vec![in alloc; 0; width]?;
        let mut high_row = vec![in alloc; 0; width]?;
        let low = low_row.as_mut_slice();
        let high = high_row.as_mut_slice();
        let mut least = Vec::from_slice(alloc, low)?;
        let mut greatest = Vec::from_slice(alloc, high)?;
        let mut totals = vec![in alloc; 0; 1]?;
        let mut counts = vec![in alloc; 0; 1]?;
        let mut before: u64 = 0;
        let mut total: i128 = 0;
        let mut stage = columns.len();
        while stage > 0 {
            stage -= 1;
            total = add_stage(scores, columns, stage, low, high, before, total);
            before += columns[stage];
            least.extend_from_slice(low)?;
            greatest.extend_from_slice(high)?;
            totals.push(total)?;
            counts.push(before)?;
        }
        Ok(LaterScores {
            scores: own_scores,
            columns: own_columns,
            width,
            least,
            greatest,
            totals,
            counts,
        })
    }

    /// How many columns there are.
    #[inline(always)]
    pub fn stages(&self) -> usize
        ensures { result ≡ length self.now.columns.items }
    {
        self.columns.len()
    }

    /// The score of a stage's column.
    #[inline(always)]
    pub fn score(&self, stage: usize) -> i128
        requires { stage < length self.now.columns.items }
        ensures { result ≡ slice_index_or self.now.scores.items stage (pos 0) }
    {
        self.scores[stage]
    }

    // Where a stage's row stands: the last stage has the first.
    #[inline(always)]
    fn row(&self, stage: usize) -> usize
        requires { stage ≤ length self.now.columns.items }
        ensures place { result ≡ length self.now.columns.items - stage }
        ensures totals { result < length self.now.totals.items }
        ensures counts { result < length self.now.counts.items }
    {
        self.columns.len() - stage
    }

    /// How many subjects are still to come at a stage.
    #[inline(always)]
    pub fn count(&self, stage: usize) -> u64
        requires { stage ≤ length self.now.columns.items }
        ensures { let later = later_scores self.now.scores.items self.now.columns.items stage in
            result ≡ length later }
    {
        self.counts[self.row(stage)]
    }

    /// The sum of all their scores.
    #[inline(always)]
    pub fn total(&self, stage: usize) -> i128
        requires { stage ≤ length self.now.columns.items }
        ensures { let later = later_scores self.now.scores.items self.now.columns.items stage in
            result ≡ total_score later }
    {
        self.totals[self.row(stage)]
    }

    // The table of an end's sums.
    #[inline(always)]
    fn table(&self, end: End) -> &[i128]
        ensures { IsPartTable (better_of end) self.now.scores.items self.now.columns.items
            self.now.width 0 result.now }
    {
        match end {
            End::Least => self.least.as_slice(),
            End::Greatest => self.greatest.as_slice(),
        }
    }

    // A held sum of `take` of a stage's later scores.
    #[inline(always)]
    fn held(&self, end: End, stage: usize, take: u64) -> i128
        requires stage { stage ≤ length self.now.columns.items }
        requires take { take < self.now.width }
        ensures { let later = later_scores self.now.scores.items self.now.columns.items stage in
            result ≡ part_sum (better_of end) take later }
    {
        let place = (self.columns.len() - stage) * self.width + take as usize;
        self.table(end)[place]
    }

    /// The sum of the `take` least scores of the later subjects, or of the greatest.
    #[inline(always)]
    pub fn part(&self, end: End, stage: usize, take: u64) -> i128
        requires stage { stage ≤ length self.now.columns.items }
        requires few { let later =
            later_scores self.now.scores.items self.now.columns.items stage in
            take ≤ length later }
        requires held { let later =
            later_scores self.now.scores.items self.now.columns.items stage in
            IsTabled self.now.width take later }
        ensures { let later = later_scores self.now.scores.items self.now.columns.items stage in
            result ≡ part_sum (better_of end) take later }
    {
        if take < self.width as u64 {
            self.held(end, stage, take)
        } else {
            // All are taken but those of the other end, which are few.
            let total = self.total(stage);
            let others = self.held(other(end), stage, self.count(stage) - take);
            total - others
        }
    }

    /// The sums of the `take` least and of the `take` greatest.
    #[inline(always)]
    pub fn ends(&self, stage: usize, take: u64) -> Interval
        requires stage { stage ≤ length self.now.columns.items }
        requires few { let later =
            later_scores self.now.scores.items self.now.columns.items stage in
            take ≤ length later }
        requires held { let later =
            later_scores self.now.scores.items self.now.columns.items stage in
            IsTabled self.now.width take later }
        ensures low { let later =
            later_scores self.now.scores.items self.now.columns.items stage in
            result.low ≡ least_sum take later }
        ensures high { let later =
            later_scores self.now.scores.items self.now.columns.items stage in
            result.high ≡ greatest_sum take later }
    {
        Interval {
            low: self.part(End::Least, stage, take),
            high: self.part(End::Greatest, stage, take),
        }
    }
}
