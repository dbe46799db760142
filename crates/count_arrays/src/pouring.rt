// The cells of one row, added to those of another.
ghost use Rattle.std.specs.Prelude.{◌≡◌, ◌+◌, ◌*◌, ◌<◌, ◌≤◌, length, map};
ghost use Rattle.std.specs.Prelude.{slice_index_or, slice_set};
ghost use Rattle.std.specs.List.{sum};
ghost use Rattle.weights.specs.declared.TheConstants.{MAX};
ghost use Rattle.count_arrays.specs.Rows.{IsPoured};

use weights::Count;

// A cell's weight, raised by another times an arc's.
#[inline(always)]
fn raised<C: Count>(cell: C, more: C, weight: u128) -> C
    requires limit { C.number cell + C.number more * weight ≤ C.LIMIT }
    requires fits { C.number more * weight ≤ MAX }
    ensures { C.number result ≡ C.number cell + C.number more * weight }
{
    match C::of(more.value() * weight) {
        Some(product) => match cell.checked_add(product) {
            Some(sum) => sum,
            None => unreachable!(),
        },
        None => unreachable!(),
    }
}

// Raises the cell at a place.
#[inline(always)]
fn raise<C: Count>(cells: &mut [C], place: usize, more: C, weight: u128)
    requires within { place < length cells.old }
    requires limit { let cell = slice_index_or (map C.number cells.old) place 0 in
        cell + C.number more * weight ≤ C.LIMIT }
    requires fits { C.number more * weight ≤ MAX }
    ensures { let cell = slice_index_or (map C.number cells.old) place 0 in
        map C.number cells.new
        ≡ slice_set (map C.number cells.old) place (cell + C.number more * weight) }
{
    cells[place] = raised(cells[place], more, weight);
}

// As `pour`. It is inlined, so that it is quick for a weight and a distance that are known.
#[inline(always)]
fn pour_by<C: Count>(from: &[C], weight: u128, place: usize, every: usize, into: &mut [C])
    requires room { place + every * length from.now < length into.old + every }
    requires limit { sum (map C.number into.old) + sum (map C.number from.now) * weight
        ≤ C.LIMIT }
    requires fits { sum (map C.number from.now) * weight ≤ MAX }
    ensures long { length into.new ≡ length into.old }
    ensures told { let added = map C.number from.now in
        IsPoured added weight place every (map C.number into.old) (map C.number into.new) }
{
    for i in 0..from.len() {
        raise(into, place + i * every, from[i], weight);
    }
}

/// Adds the cells of one row, each times an arc's weight, to those of another: the first to the
/// cell at this place, and each other one so many cells further on.
pub fn pour<C: Count>(from: &[C], weight: u128, place: usize, every: usize, into: &mut [C])
    requires room { place + every * length from.now < length into.old + every }
    requires limit { sum (map C.number into.old) + sum (map C.number from.now) * weight
        ≤ C.LIMIT }
    requires fits { sum (map C.number from.now) * weight ≤ MAX }
    ensures long { length into.new ≡ length into.old }
    ensures told { let added = map C.number from.now in
        IsPoured added weight place every (map C.number into.old) (map C.number into.new) }
{
    if weight == 1 && every == 1 {
        pour_by(from, 1, place, 1, into);
    } else {
        pour_by(from, weight, place, every, into);
    }
}
