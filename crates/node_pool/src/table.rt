// Where keys stand in buckets.
ghost use Rattle.std.specs.Prelude.{◌≡◌, ℕ, ◌+◌, ◌-◌, ◌*◌, ◌^◌, ◌<◌, ◌≤◌, ◌↔◌, IsTrue, length, slice_index, if◌then◌else◌, ◌==◌, [], ◌∷◌};
ghost use Rattle.std.specs.List.{count_by};
ghost use Rattle.node_pool.specs.HashSteps.{home_of};
ghost use Rattle.node_pool.specs.PoolSteps.{cell_key, keys_of};
ghost use Rattle.node_pool.specs.TableSteps.{IsTable, IsWalk, IsFound, key_at, is_full, AllEmpty};

use crate::hashes::{home_of, home_of_one};

/// Whether two keys are equal. They are short, and a loop is quicker on them than a search in
/// bulk.
#[inline(always)]
pub fn same_key(a: &[i128], b: &[i128]) -> bool
    requires { length a.now ≡ length b.now }
    ensures { IsTrue result ↔ (a.now ≡ b.now) }
{
    for i in 0..a.len() {
        if a[i] != b[i] {
            return false;
        }
    }
    true
}

// The slot behind a slot, where the first one follows the last.
#[inline(always)]
fn next_slot(size: usize, slot: usize) -> usize
    requires { slot < size }
    ensures value { result ≡ (if slot + 1 == size then 0 else slot + 1) }
    ensures within { result < size }
{
    if slot + 1 == size { 0 } else { slot + 1 }
}

/// Where the search for a key ends: at the key's place, or at the empty slot that is free for it.
pub enum Found {
    At(usize),
    Free(usize),
}

// Searches for a key of one number, which is most often what a key is. The number is held in a
// local: comparing slices would read it back from memory at each step.
#[inline(always)]
fn find_one(cells: &[i128], slots: &[u32], buckets: &[u32], number: i128) -> Found
    requires table { let keys = keys_of 1 (length slots.now) cells.now in
        IsTable 1 (length slots.now) keys slots.now buckets.now }
    requires room { length slots.now < length buckets.now }
    requires long { length cells.now ≡ length slots.now * 2 }
    ensures { let keys = keys_of 1 (length slots.now) cells.now in
        IsFound 1 (length slots.now) keys buckets.now (number ∷ []) result }
{
    let home = home_of_one(buckets.len(), number);
    let mut slot = home;
    let mut steps = 0usize;
    while buckets[slot] != 0 {
        let place = buckets[slot] as usize - 1;
        if cells[2 * place] == number {
            return Found::At(place);
        }
        slot = next_slot(buckets.len(), slot);
        steps += 1;
    }
    Found::Free(slot)
}

/// Searches for a key.
#[inline(always)]
pub fn find(width: usize, cells: &[i128], slots: &[u32], buckets: &[u32], key: &[i128]) -> Found
    requires table { let keys = keys_of width (length slots.now) cells.now in
        IsTable width (length slots.now) keys slots.now buckets.now }
    requires room { length slots.now < length buckets.now }
    requires long { length cells.now ≡ length slots.now * (width + 1) }
    requires wide { length key.now ≡ width }
    requires widest { width ≤ 16 }
    ensures { let keys = keys_of width (length slots.now) cells.now in
        IsFound width (length slots.now) keys buckets.now key.now result }
{
    if width == 1 {
        return find_one(cells, slots, buckets, key[0]);
    }
    let home = home_of(buckets.len(), key);
    let mut slot = home;
    let mut steps = 0usize;
    while buckets[slot] != 0 {
        let place = buckets[slot] as usize - 1;
        if same_key(cell_key(width, cells, place), key) {
            return Found::At(place);
        }
        slot = next_slot(buckets.len(), slot);
        steps += 1;
    }
    Found::Free(slot)
}

// The empty slot where the search for a key that is not held ends.
#[inline(always)]
fn free_slot(buckets: &[u32], home: usize) -> usize
    requires within { home < length buckets.now }
    requires room { count_by is_full buckets.now < length buckets.now }
    ensures within { result < length buckets.now }
    ensures walk { IsWalk buckets.now home result }
    ensures free { slice_index buckets.now result ≡ 0 }
{
    let mut slot = home;
    let mut steps = 0usize;
    while buckets[slot] != 0 {
        slot = next_slot(buckets.len(), slot);
        steps += 1;
    }
    slot
}

/// Enters every key into empty buckets.
pub fn rehash(width: usize, cells: &[i128], slots: &mut [u32], buckets: &mut [u32])
    requires empty { AllEmpty buckets.old }
    requires room { length slots.old < length buckets.old }
    requires small { length buckets.old ≤ 2 ^ 32 }
    requires long { length cells.now ≡ length slots.old * (width + 1) }
    requires widest { width ≤ 16 }
    ensures table { let keys = keys_of width (length slots.old) cells.now in
        IsTable width (length slots.new) keys slots.new buckets.new }
    ensures long { length slots.new ≡ length slots.old }
{
    for i in 0..slots.len() {
        let home = home_of(buckets.len(), cell_key(width, cells, i));
        let slot = free_slot(buckets, home);
        buckets[slot] = i as u32 + 1;
        slots[i] = slot as u32;
    }
}

/// Empties the buckets.
pub fn clear_buckets(slots: &[u32], buckets: &mut [u32])
    requires back { (s : ℕ) → s < length buckets.old → 0 < slice_index buckets.old s
        → (slice_index buckets.old s ≤ length slots.now)
        × (slice_index slots.now (slice_index buckets.old s - 1) ≡ s) }
    requires within { (i : ℕ) → i < length slots.now
        → slice_index slots.now i < length buckets.old }
    ensures { AllEmpty buckets.new }
{
    if slots.len() < buckets.len() / 8 {
        for slot in slots {
            buckets[*slot as usize] = 0;
        }
    } else {
        for bucket in buckets.iter_mut() {
            *bucket = 0;
        }
    }
}

/// The key at a place of a row, in which keys of one width lie one after another.
#[inline(always)]
pub fn key_at(width: usize, row: &[i128], i: usize) -> &[i128]
    requires { i * width + width ≤ length row.now }
    ensures { result.now ≡ key_at width row.now i }
{
    let start = i * width;
    &row[start..start + width]
}

/// The key of a cell: behind the numbers of its key each cell has one more.
#[inline(always)]
pub fn cell_key(width: usize, cells: &[i128], i: usize) -> &[i128]
    requires wide { width ≤ 16 }
    requires within { i * (width + 1) + width ≤ length cells.now }
    ensures { result.now ≡ cell_key width cells.now i }
{
    let start = i * (width + 1);
    &cells[start..start + width]
}
