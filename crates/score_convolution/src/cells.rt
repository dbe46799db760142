// Draws that are kept in a row of cells, one for each place.
ghost use Rattle.std.specs.Prelude.{◌≡◌, ℕ, ℤ, ◌+◌, ◌-◌, ◌*◌, ◌≤◌, List, drop, length, map, max, OnOk};
ghost use Rattle.std.specs.List.{sum};
ghost use Rattle.weights.specs.declared.TheConstants.{MAX};
ghost use Rattle.node_pool.specs.Nodes.{weighted};
ghost use Rattle.count_arrays.specs.Rows.{row_nodes};
ghost use Rattle.score_convolution.specs.Places.{placed_pairs};

use crate::tallies::Tally;
use count_arrays::pour;
use std::alloc::Global;
use weights::{Count, NoMemory};

/// How many draws there are at each place.
#[derive(Drop)]
pub(crate) struct Cells<C: Count> {
    counts: Vec<C>,
}

// A cell that so many draws have.
fn cell_of<C: Count>(draws: u128) -> C
    requires { draws ≤ C.LIMIT }
    ensures { C.number result ≡ draws }
{
    match C::of(draws) {
        Some(cell) => cell,
        None => unreachable!(),
    }
}

// As many cells as end at a place, or as there are.
fn reach<C: Count>(cells: &mut Vec<C>, end: usize) -> Result<(), NoMemory>
    ensures long { OnOk result (length cells.new.items ≡ max (length cells.old.items) end) }
    ensures same { OnOk result ((f : List ℤ → ℕ) (lowest stride : ℤ)
        → weighted f (row_nodes lowest stride (map C.number cells.new.items))
        ≡ weighted f (row_nodes lowest stride (map C.number cells.old.items))) }
{
    let none = cell_of::<C>(0);
    if cells.len() < end {
        cells.resize(end, none)?;
    }
    Ok(())
}

// What the cells from a place on count.
fn count_from<C: Count>(cells: &[C], place: usize) -> u128
    requires { sum (map C.number cells.now) ≤ MAX }
    ensures { result ≡ sum (drop place (map C.number cells.now)) }
{
    let mut count = 0;
    for i in place..cells.len() {
        count += cells[i].value();
    }
    count
}

// What the cell before a place counts, where there is one.
fn count_before<C: Count>(cells: &[C], place: usize) -> u128
    ensures { result + sum (drop place (map C.number cells.now))
        ≡ sum (drop (place - 1) (map C.number cells.now)) }
{
    if place > 0 && place <= cells.len() {
        cells[place - 1].value()
    } else {
        0
    }
}

// How many pairs of a draw of each row stand in cells whose places sum to at least so much: with
// each cell of one row the cells of the other that are enough begin a place earlier.
fn placed_pairs<C: Count>(ones: &[C], others: &[C], place: usize) -> u128
    requires light { sum (map C.number others.now) ≤ MAX }
    requires fits { sum (map C.number ones.now) * sum (map C.number others.now) ≤ MAX }
    ensures { result ≡ placed_pairs place (map C.number ones.now) (map C.number others.now) }
{
    let mut enough = count_from(others, place);
    let mut pairs = 0;
    for i in 0..ones.len() {
        pairs += ones[i].value() * enough;
        enough += count_before(others, place.saturating_sub(i));
    }
    pairs
}

// Those of any place. The first cells of one row are left out, with which none of the other is
// enough: so what is left of the place is an index.
fn pairs_from<C: Count>(ones: &[C], others: &[C], place: u128) -> u128
    requires light { sum (map C.number others.now) ≤ MAX }
    requires fits { sum (map C.number ones.now) * sum (map C.number others.now) ≤ MAX }
    ensures { result ≡ placed_pairs place (map C.number ones.now) (map C.number others.now) }
{
    let first = place.saturating_sub(others.len() as u128);
    if first >= ones.len() as u128 {
        return 0;
    }
    placed_pairs(&ones[first as usize..], others, (place - first) as usize)
}

impl<C: Count> Tally for Cells<C> {
    ghost use Rattle.std.specs.Prelude.{map};

    ghost LIMIT = { C.LIMIT };

    ghost cells = { λ cells. map C.number cells.counts.items };

    fn one(alloc: Global) -> Result<Cells<C>, NoMemory> {
        let mut counts = Vec::new(alloc);
        counts.push(cell_of::<C>(1))?;
        Ok(Cells { counts })
    }

    fn copy(&self, alloc: Global) -> Result<Cells<C>, NoMemory> {
        Ok(Cells {
            counts: Vec::from_slice(alloc, self.counts.as_slice())?,
        })
    }

    // So many cells have no memory where no index has room.
    fn add(&mut self, _alloc: Global, from: &Cells<C>, place: u128) -> Result<(), NoMemory> {
        let Ok(place) = usize::try_from(place) else {
            return Err(NoMemory);
        };
        let Some(end) = place.checked_add(from.counts.len()) else {
            return Err(NoMemory);
        };
        reach(&mut self.counts, end)?;
        pour(&from.counts, 1, place, 1, self.counts.as_mut_slice());
        Ok(())
    }

    fn pairs_from(&self, other: &Cells<C>, place: u128) -> u128 {
        pairs_from(&self.counts, &other.counts, place)
    }
}
