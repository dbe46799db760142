// What ranks can still add to the sum of the stratified rank sum test.
ghost use Rattle.std.specs.Prelude.{◌≡◌, ◌≤◌, ◌*◌};
ghost use Rattle.weights.specs.declared.TheConstants.{MAX};
ghost use Rattle.stratified_ranks.specs.RankRooms.{greatest_added, least_added};

use crate::rank_columns::Column;
use crate::rank_rooms::{column_of, fewest_here, from_stage, most_here, remaining_after};

// The ranks of so many subjects of a column.
#[inline(always)]
pub(crate) fn ranks_of(count: u64, column: Column) -> u128
    ensures { result ≡ count * column.rank }
{
    count as u128 * column.rank as u128
}

// The least sum of ranks that can be added from a column on, with so many to be placed.
pub(crate) fn least_added(columns: &[Column], remaining: u64) -> u128
    requires { least_added columns.now remaining ≤ MAX }
    ensures { result ≡ least_added columns.now remaining }
{
    let mut sum = 0;
    let mut later = remaining;
    for i in 0..columns.len() {
        let column = column_of(columns, i);
        let count = most_here(column, later);
        sum += ranks_of(count, column);
        later = remaining_after(column, from_stage(columns, i + 1), later, count);
    }
    sum
}

// And the greatest.
pub(crate) fn greatest_added(columns: &[Column], remaining: u64) -> u128
    requires { greatest_added columns.now remaining ≤ MAX }
    ensures { result ≡ greatest_added columns.now remaining }
{
    let mut sum = 0;
    let mut later = remaining;
    for i in 0..columns.len() {
        let column = column_of(columns, i);
        let count = fewest_here(column, later);
        sum += ranks_of(count, column);
        later = remaining_after(column, from_stage(columns, i + 1), later, count);
    }
    sum
}
