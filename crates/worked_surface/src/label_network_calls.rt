// The public calls of `label_network`, and a measure of a stranger's own.
ghost use Rattle.std.specs.Prelude.{[], ◌+◌, ◌<◌, ◌^◌, ◌∷◌, ◌≡◌, ◌≤◌, Bool, Contains, IfOk, length, ℤ};
ghost use Rattle.std.specs.List.{sum};
ghost use Rattle.label_network.specs.LabelNetwork.{IsMargin};
ghost use Rattle.label_network.specs.Measures.{AreReached, IsEnd, IsMeasure, allowed};
ghost use Rattle.label_network.specs.Measures.{extreme_labellings, passing_labellings};
ghost use Rattle.label_network.specs.Measures.{measured_network};
ghost use Rattle.networks.specs.Completions.{extreme_weight, value_weights};
ghost use Rattle.weights.specs.Labellings.{number_of_labellings};
ghost use Rattle.weights.specs.declared.TheConstants.{MAX};
ghost use Rattle.weights.specs.declared.tails.Tail.{Tail};
ghost use Rattle.worked_surface.specs.FirstColumn.{count_after, first_column};

use label_network::{ByIntervals, LabelStages, Measure};
use room_network::Measure as RoomMeasure;
use stage_network::{TailSum, Verdict, tail_sum};
use std::alloc::Global;
use weights::{NoMemory, Tail};

/// How many numbers a partial has, of a measure whose verdicts are sound.
pub fn slots<M: Measure>(measure: &M) -> usize
    ensures slots { result ≡ (M.meaning measure.now).slots }
    ensures sound { IsMeasure (M.meaning measure.now) }
{
    measure.slots()
}

/// The partial before the first column.
pub fn first_partial<M: Measure>(measure: &M, partial: &mut [i128])
    requires { length partial.old ≡ (M.meaning measure.now).slots }
    ensures { partial.new ≡ (M.meaning measure.now).first }
{
    measure.first(partial);
}

/// The partial that a choice leads to.
pub fn advance<M: Measure>(
    measure: &M,
    stage: usize,
    remaining: &[i128],
    choice: &[u64],
    partial: &[i128],
    next: &mut [i128],
)
    requires before { stage < length (M.meaning measure.now).columns }
    requires reached { AreReached (M.meaning measure.now) stage remaining.now partial.now }
    requires allowed { Contains (allowed (M.meaning measure.now) stage remaining.now) choice.now }
    requires room { length next.old ≡ (M.meaning measure.now).slots }
    ensures { let m = M.meaning measure.now in
        next.new ≡ m.advance stage remaining.now choice.now partial.now }
{
    measure.advance(stage, remaining, choice, partial, next);
}

/// What is known of the completions of sizes and a partial.
pub fn verdict<M: Measure>(
    measure: &M,
    stage: usize,
    remaining: &[i128],
    partial: &[i128],
    tail: Tail,
) -> Verdict
    requires { AreReached (M.meaning measure.now) stage remaining.now partial.now }
    ensures { result ≡ (M.meaning measure.now).verdict tail stage remaining.now partial.now }
{
    measure.verdict(stage, remaining, partial, tail)
}

/// The value of a partial after the last column.
pub fn value<M: Measure>(measure: &M, partial: &[i128]) -> i128
    requires { IsEnd (M.meaning measure.now) partial.now }
    ensures { result ≡ (M.meaning measure.now).value partial.now }
{
    measure.value(partial)
}

/// The network of a measure with its columns and rows. Its values and extreme completions weigh as
/// many labellings of single subjects as have them.
pub fn label_stages<M: Measure + Drop>(
    alloc: Global,
    columns: &[u64],
    rows: &[u64],
    measure: M,
) -> Result<LabelStages<M>, NoMemory>
    requires columns { columns.now ≡ (M.meaning measure).columns }
    requires rows { rows.now ≡ (M.meaning measure).rows }
    requires level { sum columns.now ≡ sum rows.now }
    requires units { sum rows.now < 2 ^ 64 }
    requires some { 2 ≤ length rows.now }
    requires few { length rows.now ≤ 8 }
    requires wide { length rows.now + (M.meaning measure).slots ≤ 16 }
    requires total { number_of_labellings rows.now ≤ MAX }
    ensures measure { IfOk result (λ stages. stages ≡ measure) }
    ensures values { IfOk result (λ stages.
        let m = M.meaning stages in
        (p : ℤ → Bool) → value_weights (measured_network m) p ≡ passing_labellings m p) }
    ensures tails { IfOk result (λ stages.
        let m = M.meaning stages in
        let n = measured_network m in
        (t : Tail) → extreme_weight n t 0 n.first ≡ extreme_labellings m t) }
{
    LabelStages::new(alloc, columns, rows, measure)
}

/// The network of a measure by intervals, with its columns and rows.
pub fn interval_stages<M: RoomMeasure + Drop>(
    alloc: Global,
    columns: &[u64],
    rows: &[u64],
    measure: M,
) -> Result<LabelStages<ByIntervals<M>>, NoMemory>
    requires { IsMargin (M.meaning measure) columns.now rows.now }
    ensures { IfOk result (λ stages. stages ≡ (columns.now, rows.now, measure)) }
{
    let own_columns = Vec::from_slice(alloc, columns)?;
    let own_rows = Vec::from_slice(alloc, rows)?;
    LabelStages::new(
        alloc,
        columns,
        rows,
        ByIntervals::new(own_columns, own_rows, measure),
    )
}

/// How many subjects of the first column get the second label. At least so many are extreme, for
/// every tail, and nothing is known before the last column.
#[derive(Drop)]
pub struct FirstColumn {
    columns: Vec<u64>,
    rows: Vec<u64>,
    least: i128,
    ghost wide: { 2 ≤ length rows.items },
}

// Writes the one number of a partial or a key.
pub(crate) fn write(number: i128, partial: &mut [i128])
    requires { length partial.old ≡ 1 }
    ensures { partial.new ≡ number ∷ [] }
{
    partial[0] = number;
}

fn count_after(stage: usize, choice: &[u64], partial: &[i128]) -> i128
    requires choice { stage ≡ 0 → 1 < length choice.now }
    requires partial { length partial.now ≡ 1 }
    ensures { result ≡ count_after stage choice.now partial.now }
{
    if stage == 0 {
        choice[1] as i128
    } else {
        partial[0]
    }
}

impl Measure for FirstColumn {
    ghost meaning = { λ s. first_column s.columns.items s.rows.items s.least };

    fn slots(&self) -> usize {
        1
    }

    fn first(&self, partial: &mut [i128]) {
        write(0, partial);
    }

    fn advance(
        &self,
        stage: usize,
        _remaining: &[i128],
        choice: &[u64],
        partial: &[i128],
        next: &mut [i128],
    ) {
        write(count_after(stage, choice, partial), next);
    }

    fn verdict(&self, stage: usize, _remaining: &[i128], partial: &[i128], _tail: Tail) -> Verdict {
        if stage < self.columns.len() {
            Verdict::Undecided
        } else if self.least <= partial[0] {
            Verdict::Inside
        } else {
            Verdict::Outside
        }
    }

    fn value(&self, partial: &[i128]) -> i128 {
        partial[0]
    }
}

/// How many labellings give the second label to at least so many subjects of the first column.
pub fn first_column_sum(
    alloc: Global,
    columns: &[u64],
    rows: &[u64],
    least: i128,
    tail: Tail,
) -> Result<TailSum, NoMemory>
    requires level { sum columns.now ≡ sum rows.now }
    requires units { sum rows.now < 2 ^ 64 }
    requires some { 2 ≤ length rows.now }
    requires few { length rows.now ≤ 8 }
    requires total { number_of_labellings rows.now ≤ MAX }
    ensures { let m = first_column columns.now rows.now least in
        IfOk result (λ found. found.sum ≡ extreme_labellings m tail) }
{
    let measure = FirstColumn {
        columns: Vec::from_slice(alloc, columns)?,
        rows: Vec::from_slice(alloc, rows)?,
        least,
    };
    let stages = LabelStages::new(alloc, columns, rows, measure)?;
    tail_sum(alloc, &stages, tail)
}
