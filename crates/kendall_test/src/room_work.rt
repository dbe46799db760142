// How much work the rooms of Kendall's test are. No answer depends on it: it only says which of two
// ways to the same numbers is taken.
use weights::binomial;

// How many lists may be left of counts, where there were so many before this count was put to them:
// it is left out, or 1, 2 and so on to all of it is kept. Where as much was kept of an earlier one,
// the lists from before that one were met then.
fn lists_with(lists: u128, count: u64, met_by: &mut [u128; 120]) -> u128 {
    let mut more = lists;
    for kept in 0..count.min(120) as usize {
        let again = met_by[kept];
        more = more.saturating_add(lists.saturating_sub(again));
        met_by[kept] = lists;
    }
    more
}

// How many different lists may be left of counts, where those of 0 are not kept: as many rooms.
fn lists_left(counts: &[u64]) -> u128 {
    let mut met_by = [0u128; 120];
    let mut lists: u128 = 1;
    for count in counts {
        lists = lists_with(lists, *count, &mut met_by);
    }
    lists
}

// How many ways there are to choose k of n, as far as they can be told.
fn ways(n: u64, k: u64) -> u128 {
    match binomial(n, k) {
        Some(ways) => ways,
        None => u128::MAX,
    }
}

// How many choices a column has at most where so many units are left, of these labels: those of its
// units, and those of labels of which none runs out.
fn choices_of(column: u64, labels: u64, left: u64) -> u128 {
    let places = column.saturating_add(labels).saturating_sub(1);
    ways(left, column).min(ways(places, column))
}

// The choices of all columns, the first of which is chosen first.
fn all_choices(columns: &[u64], labels: u64) -> u128 {
    let mut left: u64 = 0;
    let mut choices: u128 = 0;
    for column in columns.iter().rev() {
        left = left.saturating_add(*column);
        choices = choices.saturating_add(choices_of(*column, labels, left));
    }
    choices
}

// The rooms times the choices of all columns.
fn work_of(columns: &[u64], rows: &[u64]) -> u128 {
    lists_left(rows).saturating_mul(all_choices(columns, rows.len() as u64))
}

/// Whether it is less work to give the columns to the rows' subjects than the rows to the columns'.
pub(crate) fn is_less_work_transposed(columns: &[u64], rows: &[u64]) -> bool {
    work_of(rows, columns) < work_of(columns, rows)
}
