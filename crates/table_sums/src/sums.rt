// Sums of products over the cells of a table, and weights of tables, column by column: of a table
// of counts, and of the table that a labelling gives.
ghost use Rattle.std.specs.Prelude.{◌≡◌, ◌+◌, ◌*◌, ◌^◌, ◌<◌, ◌≤◌, length, take, drop, unsigned_abs, ◌+ℤ◌, ◌*ℤ◌};
ghost use Rattle.std.specs.List.{count_by, sum};
ghost use Rattle.std.specs.Prelude.{nat_eq};
ghost use Rattle.weights.specs.declared.TheConstants.{MAX};
ghost use Rattle.weights.specs.Grouped.{columns_of, table_weight};
ghost use Rattle.weights.specs.Labellings.{counts_of, number_of_labellings};
ghost use Rattle.label_network.specs.Linear.{row_sum, table_sum};
ghost use Rattle.table_reader.specs.Data.{table_data_of};
ghost use Rattle.table_sums.specs.declared.TheConstants.{MOST_SCORE};
ghost use Rattle.table_sums.specs.Tables.{columns_in};
ghost use Rattle.table_sums.specs.TableSteps.{AreColumns, AreScored, AreScores, most_added, most_subjects};

use crate::margins::read_column;
use label_network::score_choice;
use table_reader::Table;
use weights::{multinomial, plus, times};

/// How often a label occurs.
pub fn count_label(labels: &[u8], label: u64) -> u64
    ensures { result ≡ count_by (λ l. nat_eq l label) labels.now }
{
    labels.iter().filter(|l| **l as u64 == label).count() as u64
}

/// The first `count` labels, of no fewer.
pub fn front(labels: &[u8], count: u64) -> &[u8]
    requires { count ≤ length labels.now }
    ensures { result.now ≡ take count labels.now }
{
    &labels[..count as usize]
}

// How often each label occurs.
fn count_labels(labels: &[u8], counts: &mut [u64])
    ensures { counts.new ≡ counts_of (length counts.old) labels.now }
{
    for i in 0..counts.len() {
        counts[i] = count_label(labels, i as u64);
    }
}

// Counts the labels of a column, of so many subjects, and answers those after it.
fn read_labels<'a>(labels: &'a [u8], column: u64, counts: &mut [u64]) -> &'a [u8]
    requires { column ≤ length labels.now }
    ensures counts { counts.new ≡ counts_of (length counts.old) (take column labels.now) }
    ensures rest { result.now ≡ drop column labels.now }
{
    count_labels(front(labels, column), counts);
    &labels[column as usize..]
}

// What a column adds: its score times the summed row scores of its subjects.
fn column_term(row_scores: &[i128], score: i128, counts: &[u64]) -> i128
    requires rows { AreScores row_scores.now }
    requires score { unsigned_abs score ≤ MOST_SCORE }
    requires level { length counts.now ≡ length row_scores.now }
    requires few { sum counts.now ≤ most_subjects }
    ensures term { result ≡ score *ℤ row_sum row_scores.now counts.now }
    ensures small { unsigned_abs result ≤ most_added }
{
    times(score, score_choice(row_scores, counts))
}

/// The sum of row score times column score over the subjects of a table, with a score for each row
/// and for each column, none of which passes [`MOST_SCORE`](crate::MOST_SCORE).
pub fn observed_sum(table: &Table, row_scores: &[i128], column_scores: &[i128]) -> i128
    requires rows { AreScores row_scores.now }
    requires columns { AreScores column_scores.now }
    requires rows_level { length row_scores.now ≡ table.now.rows }
    requires columns_level { length column_scores.now ≡ table.now.columns }
    ensures { let columns = columns_in (table_data_of table.now) in
        result ≡ table_sum row_scores.now column_scores.now columns }
{
    let mut room = [0u64; 8];
    let column = &mut room[..row_scores.len()];
    let mut sum: i128 = 0;
    for j in 0..column_scores.len() {
        read_column(table, j, column);
        sum = plus(sum, column_term(row_scores, column_scores[j], column));
    }
    sum
}

/// The same of the table that a labelling gives: a row for each subject, who stand column by
/// column.
pub fn labelled_sum(
    row_scores: &[i128],
    column_scores: &[i128],
    columns: &[u64],
    labels: &[u8],
) -> i128
    requires { AreScored row_scores.now column_scores.now columns.now labels.now }
    ensures { let table = columns_of (length row_scores.now) columns.now labels.now in
        result ≡ table_sum row_scores.now column_scores.now table }
{
    let mut room = [0u64; 8];
    let counts = &mut room[..row_scores.len()];
    let mut sum: i128 = 0;
    let mut later = labels;
    for j in 0..columns.len() {
        later = read_labels(later, columns[j], counts);
        sum = plus(sum, column_term(row_scores, column_scores[j], counts));
    }
    sum
}

// The number of labellings of some counts.
fn ways_of(counts: &[u64]) -> u128
    requires small { sum counts.now < 2 ^ 64 }
    requires fits { number_of_labellings counts.now ≤ MAX }
    ensures { result ≡ number_of_labellings counts.now }
{
    match multinomial(counts) {
        Some(ways) => ways,
        None => 0,
    }
}

/// The weight of a table: how many labellings give it. It must not pass `weights::MAX`.
pub fn observed_weight(table: &Table) -> u128
    requires { table_weight (columns_in (table_data_of table.now)) ≤ MAX }
    ensures { result ≡ table_weight (columns_in (table_data_of table.now)) }
{
    let mut room = [0u64; 8];
    let column = &mut room[..table.rows as usize];
    let mut weight: u128 = 1;
    for j in 0..table.columns as usize {
        read_column(table, j, column);
        weight *= ways_of(column);
    }
    weight
}

/// The weight of the table that a labelling of at most 8 rows gives. It must not pass
/// `weights::MAX`.
pub fn labelled_weight(rows: usize, columns: &[u64], labels: &[u8]) -> u128
    requires few { rows ≤ 8 }
    requires whole { AreColumns columns.now labels.now }
    requires fits { table_weight (columns_of rows columns.now labels.now) ≤ MAX }
    ensures { result ≡ table_weight (columns_of rows columns.now labels.now) }
{
    let mut room = [0u64; 8];
    let counts = &mut room[..rows];
    let mut weight: u128 = 1;
    let mut later = labels;
    for column in columns {
        later = read_labels(later, *column, counts);
        weight *= ways_of(counts);
    }
    weight
}
