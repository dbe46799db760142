// The points of pairs of subjects, by how many subjects of each group are placed and remain.
ghost use Rattle.std.specs.Prelude.{◌≡◌, ◌+◌, ◌*◌, ◌≤◌, length, pos, take, drop, true};
ghost use Rattle.std.specs.List.{sum};
ghost use Rattle.weights.specs.Grouped.{fits, minus};
ghost use Rattle.weights.specs.Labellings.{counts_of};
ghost use Rattle.weights.specs.declared.TheConstants.{MAX};
ghost use Rattle.record_reader.specs.declared.TheConstants.{MOST_ROWS};
ghost use Rattle.ordered_samples.specs.Umbrella.{subject_pairs};
ghost use Rattle.ordered_samples.specs.PairCounts.{column_points};
ghost use Rattle.ordered_samples.specs.UmbrellaSteps.{ArePairs, AreColumns, points_from};

use crate::subjects::count_labels;
use crate::used_pairs::UsedPair;

// Of one pair of groups: 2 for each subject of the greater one with each placed before it, 1 with
// each beside it.
#[inline(always)]
fn points(placed: u64, beside: u64, greater: u64) -> u64
    requires placed { placed ≤ MOST_ROWS }
    requires beside { beside ≤ MOST_ROWS }
    requires greater { greater ≤ MOST_ROWS }
    ensures { result ≡ 2 * (placed * greater) + beside * greater }
{
    2 * (placed * greater) + beside * greater
}

/// What a column's subjects add over the used pairs, where so many subjects of each group are left
/// before it.
#[inline(always)]
pub(crate) fn column_points(pairs: &[UsedPair], rows: &[u64], left: &[u64], column: &[u64]) -> u64
    requires pairs { ArePairs (length rows.now) pairs.now }
    requires few { sum rows.now ≤ MOST_ROWS }
    requires left { fits left.now rows.now ≡ true }
    requires column { fits column.now left.now ≡ true }
    ensures { result ≡ column_points pairs.now rows.now left.now column.now }
{
    let mut sum: u64 = 0;
    for i in 0..pairs.len() {
        let pair = pairs[i];
        let placed = rows[pair.lesser] - left[pair.lesser];
        sum += points(placed, column[pair.lesser], column[pair.greater]);
    }
    sum
}

#[inline(always)]
fn product(one: u64, other: u64) -> u64
    requires one { one ≤ MOST_ROWS }
    requires other { other ≤ MOST_ROWS }
    ensures { result ≡ one * other }
{
    one * other
}

/// How many pairs of subjects the used pairs of groups of these sizes have.
#[inline(always)]
pub(crate) fn subject_pairs(pairs: &[UsedPair], sizes: &[u64]) -> u64
    requires pairs { ArePairs (length sizes.now) pairs.now }
    requires few { sum sizes.now ≤ MOST_ROWS }
    ensures { result ≡ subject_pairs pairs.now sizes.now }
{
    let mut sum: u64 = 0;
    for i in 0..pairs.len() {
        let pair = pairs[i];
        sum += product(sizes[pair.lesser], sizes[pair.greater]);
    }
    sum
}

fn whole(points: u128) -> i128
    requires { points ≤ MAX }
    ensures { result ≡ pos points }
{
    points as i128
}

pub(crate) fn signed(count: u64) -> i128
    ensures { result ≡ pos count }
{
    count as i128
}

// Takes away the subjects of a column.
fn take_away(left: &mut [u64], column: &[u64])
    requires { fits column.now left.old ≡ true }
    ensures { left.new ≡ minus left.old column.now }
{
    for i in 0..left.len() {
        left[i] -= column[i];
    }
}

// Places the subjects of a column with these labels: what they add.
fn place_column(pairs: &[UsedPair], rows: &[u64], left: &mut [u64], labels: &[u8]) -> u64
    requires few_rows { length rows.now ≤ 8 }
    requires pairs { ArePairs (length rows.now) pairs.now }
    requires few { sum rows.now ≤ MOST_ROWS }
    requires left { fits left.old rows.now ≡ true }
    requires column { fits (counts_of (length rows.now) labels.now) left.old ≡ true }
    ensures left { left.new ≡ minus left.old (counts_of (length rows.now) labels.now) }
    ensures points { let column = counts_of (length rows.now) labels.now in
        result ≡ column_points pairs.now rows.now left.old column }
{
    let mut numbers = [0u64; 8];
    let column = &mut numbers[..rows.len()];
    count_labels(labels, column);
    let sum = column_points(pairs, rows, left, column);
    take_away(left, column);
    sum
}

#[inline(always)]
fn front(labels: &[u8], count: usize) -> &[u8]
    requires { count ≤ length labels.now }
    ensures { result.now ≡ take count labels.now }
{
    &labels[..count]
}

#[inline(always)]
fn back(labels: &[u8], count: usize) -> &[u8]
    requires { count ≤ length labels.now }
    ensures { result.now ≡ drop count labels.now }
{
    &labels[count..]
}

// Places the subjects with these labels, column by column: what they add.
fn place_columns(
    pairs: &[UsedPair],
    rows: &[u64],
    left: &mut [u64],
    columns: &[u64],
    labels: &[u8],
) -> u128
    requires few_rows { length rows.now ≤ 8 }
    requires pairs { ArePairs (length rows.now) pairs.now }
    requires few { sum rows.now ≤ MOST_ROWS }
    requires left { fits left.old rows.now ≡ true }
    requires labels { counts_of (length rows.now) labels.now ≡ left.old }
    requires columns { AreColumns columns.now labels.now }
    ensures { result ≡ points_from pairs.now rows.now left.old columns.now labels.now }
{
    let mut later = labels;
    let mut sum: u128 = 0;
    for g in 0..columns.len() {
        let size = columns[g] as usize;
        sum += place_column(pairs, rows, left, front(later, size)) as u128;
        later = back(later, size);
    }
    sum
}

/// The points of a labelling over the used pairs, the subjects in columns of tied ones.
pub(crate) fn labelling_points(
    pairs: &[UsedPair],
    rows: &[u64],
    columns: &[u64],
    labels: &[u8],
) -> i128
    requires few_rows { length rows.now ≤ 8 }
    requires pairs { ArePairs (length rows.now) pairs.now }
    requires few { sum rows.now ≤ MOST_ROWS }
    requires labels { counts_of (length rows.now) labels.now ≡ rows.now }
    requires columns { AreColumns columns.now labels.now }
    ensures { let points = points_from pairs.now rows.now rows.now columns.now labels.now in
        result ≡ pos points }
{
    let mut numbers = [0u64; 8];
    let left = &mut numbers[..rows.len()];
    left.copy_from_slice(rows);
    whole(place_columns(pairs, rows, left, columns, labels))
}
