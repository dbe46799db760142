// Choices that stand for all that differ from them in the order of rows of equal size alone.
ghost use Rattle.std.specs.Prelude.{◌≡◌, ◌+◌, ◌*◌, ◌^◌, ◌<◌, ◌≤◌, ◌&&◌, [], ◌∷◌, filter, length};
ghost use Rattle.std.specs.Prelude.{nat_eq, true, if◌then◌else◌};
ghost use Rattle.std.specs.List.{sum, Contains};
ghost use Rattle.weights.specs.Grouped.{choices};
ghost use Rattle.weights.specs.declared.TheConstants.{MAX};
ghost use Rattle.label_network.specs.ChoiceOrder.{later_choices};
ghost use Rattle.label_network.specs.LabelSteps.{AreSizes, IsHeld};
ghost use Rattle.label_network.specs.Meanings.{sizes_in};
ghost use Rattle.sorted_tables.specs.GatheredChoices.{gathered_weight, is_gathered};
ghost use Rattle.sorted_tables.specs.SortedSteps.{gathered_count, raised, run, stands_again};

use label_network::{Binomials, read_sizes, weight_in};

// Whether there is a row after this one, of the same number.
pub(crate) fn goes_on(numbers: &[u64], i: usize) -> bool
    requires { i < length numbers.now }
    ensures { result ≡ stands_again numbers.now i }
{
    i + 1 < numbers.len() && numbers[i + 1] == numbers[i]
}

// How many rows of one kind there are from a row on, by those after it.
#[inline(always)]
pub(crate) fn count_on(goes_on: bool, count: u64) -> u64
    requires { count ≤ 8 }
    ensures { result ≡ if goes_on then count + 1 else 1 }
{
    if goes_on { count + 1 } else { 1 }
}

// What a row gets at least, by the one before it.
#[inline(always)]
pub(crate) fn floor_of(size: u64, before: u64, count: u64) -> u64
    ensures { result ≡ if nat_eq size before then count else 0 }
{
    if size == before { count } else { 0 }
}

// Writes the first choice that stands for others behind a row of a size that gets so many: as few
// as can be from each row in turn, but from a row of the size of the one before no fewer.
fn raise_counts(total: u64, size: u64, least: u64, rows: &[u64], whole: u64, counts: &mut [u64])
    requires whole { whole ≡ sum rows.now }
    requires few { least ≤ size }
    requires enough { least * run size rows.now ≤ total }
    requires fits { total ≤ sum rows.now }
    requires room { length counts.old ≡ length rows.now }
    ensures { counts.new ≡ raised size least total rows.now }
{
    let mut later = whole;
    let mut left = total;
    let mut before = size;
    let mut count = least;
    for i in 0..rows.len() {
        later -= rows[i];
        let floor = floor_of(rows[i], before, count);
        count = floor.max(left.saturating_sub(later));
        before = rows[i];
        counts[i] = count;
        left -= count;
    }
}

/// Moves on to the next choice that stands for all that are gathered into it, where there is one:
/// the last row that can take one more does, where enough are left for the rows of its size, and
/// the rows after it begin anew.
pub(crate) fn next_gathered(total: u64, sizes: &[i128], counts: &mut [u64]) -> bool
    requires few { length sizes.now ≤ 8 }
    requires sizes { AreSizes sizes.now }
    requires small { sum (sizes_in sizes.now) < 2 ^ 64 }
    requires allowed { Contains (choices total (sizes_in sizes.now)) counts.old }
    requires gathered { is_gathered (sizes_in sizes.now) counts.old ≡ true }
    ensures { let rows = sizes_in sizes.now in
        let rest = filter (is_gathered rows) (later_choices total rows counts.new) in
        filter (is_gathered rows) (later_choices total rows counts.old)
        ≡ (if result then counts.new ∷ rest else []) }
{
    let mut numbers = [0u64; 8];
    let rows = &mut numbers[..sizes.len()];
    read_sizes(sizes, rows);
    let mut i = counts.len();
    let mut later: u64 = 0;
    let mut behind: u64 = 0;
    let mut equal: u64 = 0;
    while i > 0 {
        i -= 1;
        later += counts[i];
        equal = count_on(goes_on(rows, i), equal);
        let needed = (counts[i] as u128 + 1) * equal as u128;
        if counts[i] < rows[i] && needed <= later as u128 {
            counts[i] += 1;
            let rest = later - counts[i];
            raise_counts(
                rest,
                rows[i],
                counts[i],
                &rows[i + 1..],
                behind,
                &mut counts[i + 1..],
            );
            return true;
        }
        behind += rows[i];
    }
    false
}

// How many choices are gathered into one: in how many orders rows of equal size may stand, over in
// how many those of them may that get as much.
fn count_gathered(rows: &[u64], counts: &[u64]) -> u64
    requires few { length rows.now ≤ 8 }
    requires allowed { Contains (choices (sum counts.now) rows.now) counts.now }
    requires gathered { is_gathered rows.now counts.now ≡ true }
    ensures { result ≡ gathered_count rows.now counts.now }
{
    let mut orders: u64 = 1;
    let mut alike_orders: u64 = 1;
    let mut equal: u64 = 0;
    let mut alike: u64 = 0;
    let mut i = counts.len();
    while i > 0 {
        i -= 1;
        if goes_on(rows, i) {
            equal = count_on(true, equal);
            alike = count_on(goes_on(counts, i), alike);
            orders *= equal;
            alike_orders *= alike;
        } else {
            equal = 1;
            alike = 1;
        }
    }
    orders / alike_orders
}

/// In how many ways a column's subjects are labelled by all choices that are gathered into one.
#[inline(always)]
pub(crate) fn weight_gathered(
    binomials: &Binomials,
    column: u64,
    rows: &[u64],
    counts: &[u64],
) -> u128
    requires few { length rows.now ≤ 8 }
    requires whole { column ≡ sum counts.now }
    requires allowed { Contains (choices column rows.now) counts.now }
    requires gathered { is_gathered rows.now counts.now ≡ true }
    requires held { IsHeld binomials.now.width counts.now }
    requires fits { gathered_weight rows.now counts.now ≤ MAX }
    ensures { result ≡ gathered_weight rows.now counts.now }
{
    weight_in(binomials, column, counts) * count_gathered(rows, counts) as u128
}
