// The draws of at most so many subjects: a row for each number of them.
ghost use Rattle.std.specs.Prelude.{◌≡◌, ℕ, ℤ, pos, ◌+◌, ◌+ℤ◌, ◌<◌, ◌≤◌, [], length, take, get_or};
ghost use Rattle.std.specs.Prelude.{max, min, OnOk, IfOk};
ghost use Rattle.std.specs.List.{AllByRecursion};
ghost use Rattle.weights.specs.Numbers.{absolute_sum};
ghost use Rattle.weights.specs.declared.TheConstants.{MAX};
ghost use Rattle.count_arrays.specs.Rows.{stepped};
ghost use Rattle.score_convolution.specs.DrawRows.{AreCounted, AreDraws, AreRows, AreSubjects, IsDrawRow};
ghost use Rattle.score_convolution.specs.DrawRows.{IsRowOf, NoneAbove, row_draws, rows_draws, with_one};
ghost use Rattle.score_convolution.specs.declared.rows.DrawRow.{DrawRow};

use crate::rows::{DrawRow, place_between};
use crate::tallies::Tally;
use std::alloc::Global;
use weights::NoMemory;

// The one draw of nobody, in a list.
fn nobody_alone<K: Tally>(alloc: Global) -> Result<Vec<DrawRow<K>>, NoMemory>
    requires { 1 ≤ K.LIMIT }
    ensures { IfOk result (λ rows. (most stride : ℕ)
        → AreDraws K.cells K.LIMIT most stride [] rows.items) }
{
    let mut rows = Vec::new(alloc);
    rows.push(DrawRow::nobody(alloc)?)?;
    Ok(rows)
}

// Adds the row of n to the one behind it, its lowest draw at a place.
fn add_behind<K: Tally>(
    alloc: Global,
    rows: &mut [DrawRow<K>],
    n: usize,
    place: u128,
) -> Result<(), NoMemory>
    requires n { n + 1 < length rows.old }
    requires rows { AllByRecursion (IsDrawRow K.cells K.LIMIT) rows.old }
    requires within { (d : DrawRow K)
        → (get_or rows.old (n + 1) d).total + (get_or rows.old n d).total ≤ K.LIMIT }
    requires fits { (d : DrawRow K)
        → (get_or rows.old (n + 1) d).total + (get_or rows.old n d).total ≤ MAX }
    requires near { (d : DrawRow K)
        → max (length (K.cells (get_or rows.old (n + 1) d).tally))
        (place + length (K.cells (get_or rows.old n d).tally)) ≤ MAX + 1 }
    ensures long { length rows.new ≡ length rows.old }
    ensures rows { OnOk result (AllByRecursion (IsDrawRow K.cells K.LIMIT) rows.new) }
    ensures others { OnOk result ((i : ℕ) (d : DrawRow K) → (i ≡ n + 1 → ⊥)
        → get_or rows.new i d ≡ get_or rows.old i d) }
    ensures total { OnOk result ((d : DrawRow K) → (get_or rows.new (n + 1) d).total
        ≡ (get_or rows.old (n + 1) d).total + (get_or rows.old n d).total) }
    ensures lowest { OnOk result ((d : DrawRow K)
        → (get_or rows.new (n + 1) d).lowest ≡ (get_or rows.old (n + 1) d).lowest) }
    ensures reach { OnOk result ((d : DrawRow K)
        → length (K.cells (get_or rows.new (n + 1) d).tally)
        ≤ max (length (K.cells (get_or rows.old (n + 1) d).tally))
        (place + length (K.cells (get_or rows.old n d).tally))) }
    ensures told { OnOk result ((f : ℕ → ℤ → ℕ) (d : DrawRow K) (stride : ℕ) (score : ℤ)
        → stepped (get_or rows.old (n + 1) d).lowest (pos stride) place
        ≡ (get_or rows.old n d).lowest +ℤ score
        → rows_draws K.cells f 0 stride rows.new
        ≡ rows_draws K.cells f 0 stride rows.old
        + row_draws K.cells (with_one score f n) stride (get_or rows.old n d)) }
{
    let (before, behind) = rows.split_at_mut(n + 1);
    behind[0].add(alloc, &before[n], place)
}

// Adds each of so many rows to the one behind it, the last first, with the subject at a place.
fn add_down<K: Tally>(
    alloc: Global,
    rows: &mut [DrawRow<K>],
    count: usize,
    scores: &[i128],
    i: usize,
    stride: u128,
) -> Result<(), NoMemory>
    requires count { count < length rows.old }
    requires few { count ≤ i }
    requires i { i < length scores.now }
    requires subjects { AreSubjects stride scores.now }
    requires counted { AreCounted K.LIMIT count scores.now }
    requires rows { AllByRecursion (IsDrawRow K.cells K.LIMIT) rows.old }
    requires before { (n : ℕ) (d : DrawRow K) → n ≤ count
        → IsRowOf K.cells K.LIMIT (take i scores.now) n (get_or rows.old n d) }
    ensures long { length rows.new ≡ length rows.old }
    ensures rows { OnOk result (AllByRecursion (IsDrawRow K.cells K.LIMIT) rows.new) }
    ensures after { OnOk result ((n : ℕ) (d : DrawRow K) → n ≤ count
        → IsRowOf K.cells K.LIMIT (take (i + 1) scores.now) n (get_or rows.new n d)) }
    ensures behind { OnOk result ((n : ℕ) (d : DrawRow K) → count < n
        → get_or rows.new n d ≡ get_or rows.old n d) }
    ensures told { OnOk result ((f : ℕ → ℤ → ℕ)
        → rows_draws K.cells f 0 stride rows.new
        ≡ rows_draws K.cells f 0 stride rows.old
        + rows_draws K.cells (with_one (get_or scores.now i (pos 0)) f) 0 stride
        (take count rows.old)) }
{
    let mut n = count;
    while n > 0 {
        n -= 1;
        let place = place_between(scores[n], scores[i], stride);
        add_behind(alloc, rows, n, place)?;
    }
    Ok(())
}

// Adds the draws of one subject more than in the last row, where there may be so many, and answers
// how many rows are still to be added to those behind them.
fn with_next<K: Tally>(
    alloc: Global,
    rows: &mut Vec<DrawRow<K>>,
    scores: &[i128],
    i: usize,
    most: usize,
) -> Result<usize, NoMemory>
    requires i { i < length scores.now }
    requires small { absolute_sum scores.now ≤ MAX }
    requires rows { AreRows K.cells K.LIMIT most (take i scores.now) rows.old.items }
    ensures rows { OnOk result (AllByRecursion (IsDrawRow K.cells K.LIMIT) rows.new.items) }
    ensures long { OnOk result (length rows.new.items ≡ min most (i + 1) + 1) }
    ensures last { IfOk result (λ last. last ≡ min most i) }
    ensures before { OnOk result ((n : ℕ) (d : DrawRow K) → n ≤ min most i
        → get_or rows.new.items n d ≡ get_or rows.old.items n d) }
    ensures next { OnOk result ((n : ℕ) (d : DrawRow K) → min most i < n
        → n < length rows.new.items
        → IsRowOf K.cells K.LIMIT (take (i + 1) scores.now) n (get_or rows.new.items n d)) }
    ensures told { IfOk result (λ last. (f : ℕ → ℤ → ℕ) (stride : ℕ) → NoneAbove most f
        → rows_draws K.cells f 0 stride rows.new.items
        + rows_draws K.cells (with_one (get_or scores.now i (pos 0)) f) 0 stride
        (take last rows.new.items)
        ≡ rows_draws K.cells f 0 stride rows.old.items
        + rows_draws K.cells (with_one (get_or scores.now i (pos 0)) f) 0 stride rows.old.items) }
{
    let last = rows.len() - 1;
    if last >= most {
        return Ok(last);
    }
    let row = rows[last].with(alloc, scores[i])?;
    rows.push(row)?;
    Ok(last)
}

// A subject more.
fn add_subject<K: Tally>(
    alloc: Global,
    rows: &mut Vec<DrawRow<K>>,
    scores: &[i128],
    i: usize,
    stride: u128,
    most: usize,
) -> Result<(), NoMemory>
    requires i { i < length scores.now }
    requires subjects { AreSubjects stride scores.now }
    requires counted { AreCounted K.LIMIT most scores.now }
    requires rows { AreRows K.cells K.LIMIT most (take i scores.now) rows.old.items }
    ensures rows { OnOk result
        (AreRows K.cells K.LIMIT most (take (i + 1) scores.now) rows.new.items) }
    ensures told { OnOk result ((f : ℕ → ℤ → ℕ) → NoneAbove most f
        → rows_draws K.cells f 0 stride rows.new.items
        ≡ rows_draws K.cells f 0 stride rows.old.items
        + rows_draws K.cells (with_one (get_or scores.now i (pos 0)) f) 0 stride rows.old.items) }
{
    let last = with_next(alloc, rows, scores, i, most)?;
    add_down(alloc, rows.as_mut_slice(), last, scores, i, stride)
}

/// The draws of at most so many of the subjects with these scores, which ascend and lie strides
/// apart.
pub(crate) fn draw_rows<K: Tally>(
    alloc: Global,
    scores: &[i128],
    stride: u128,
    most: usize,
) -> Result<Vec<DrawRow<K>>, NoMemory>
    requires subjects { AreSubjects stride scores.now }
    requires counted { AreCounted K.LIMIT most scores.now }
    ensures { IfOk result (λ rows. AreDraws K.cells K.LIMIT most stride scores.now rows.items) }
{
    let mut rows = nobody_alone(alloc)?;
    for i in 0..scores.len() {
        add_subject(alloc, &mut rows, scores, i, stride, most)?;
    }
    Ok(rows)
}
