// Keys that do not ascend within their run: put aside, sorted, and added as a run of their own.
ghost use Rattle.std.specs.Prelude.{◌≡◌, ◌+◌, ◌<◌, ◌≤◌, ◌∷◌, [], length, drop, false, OnOk};
ghost use Rattle.node_pool.specs.Nodes.{weighted};
ghost use Rattle.node_runs.specs.Runs.{IsAdded, IsGrown, IsPoured, loose_nodes};
ghost use Rattle.node_runs.specs.RunSteps.{IsJoined};

use crate::merger::plus;
use crate::run_pool::RunPool;
use weights::{Count, NoMemory};

/// A key of one number that was put aside, with its weight.
#[derive(Clone, Copy)]
pub struct Lead<C: Count> {
    pub number: i128,
    pub weight: C,
}

// The keys of one number, from a place on, as one.
#[inline(always)]
fn joined<C: Count>(leads: &[Lead<C>], place: &mut usize) -> Lead<C>
    requires within { place.old < length leads.now }
    requires fits { let nodes = loose_nodes C.number (drop place.old leads.now) in
        weighted (λ k. 1) nodes ≤ C.LIMIT }
    ensures on { place.old < place.new }
    ensures within { place.new ≤ length leads.now }
    ensures joined { let old = loose_nodes C.number (drop place.old leads.now) in
        let new = loose_nodes C.number (drop place.new leads.now) in
        IsJoined old (result.number ∷ []) (C.number result.weight) new }
{
    let mut lead = leads[*place];
    *place += 1;
    while *place < leads.len() && leads[*place].number == lead.number {
        lead.weight = plus(lead.weight, leads[*place].weight);
        *place += 1;
    }
    lead
}

/// Adds a weight to a key's. A key that does not come behind those that its run has passed is put
/// aside.
#[inline(always)]
pub fn add_or_keep<C: Count>(
    pool: &mut RunPool<C>,
    loose: &mut Vec<Lead<C>>,
    key: &[i128],
    weight: C,
) -> Result<(), NoMemory>
    requires wide { length key.now ≡ pool.old.width }
    requires fits { weighted (λ k. 1) pool.old.nodes + C.number weight ≤ C.LIMIT }
    ensures width { OnOk result (pool.new.width ≡ pool.old.width) }
    ensures one { OnOk result ((0 < length loose.old.items → pool.old.width ≡ 1)
        → 0 < length loose.new.items → pool.old.width ≡ 1) }
    ensures added { let old = loose_nodes C.number loose.old.items in
        let new = loose_nodes C.number loose.new.items in
        OnOk result
        (IsAdded pool.old.nodes old key.now (C.number weight) pool.new.nodes new) }
{
    if pool.takes(key) {
        return pool.add(key, weight);
    }
    loose.push(Lead {
        number: key[0],
        weight,
    })?;
    Ok(())
}

// Adds a weight to that of a key of one number.
#[inline(always)]
fn add_one<C: Count>(pool: &mut RunPool<C>, lead: Lead<C>) -> Result<(), NoMemory>
    requires one { pool.old.width ≡ 1 }
    requires fits { weighted (λ k. 1) pool.old.nodes + C.number lead.weight ≤ C.LIMIT }
    ensures width { OnOk result (pool.new.width ≡ 1) }
    ensures grown { let weight = C.number lead.weight in
        OnOk result (IsGrown pool.old.nodes (lead.number ∷ []) weight pool.new.nodes) }
{
    pool.add([lead.number].as_slice(), lead.weight)
}

// Adds the keys that were put aside, as a run of their own.
#[inline(never)]
fn add_sorted<C: Count>(loose: &mut Vec<Lead<C>>, pool: &mut RunPool<C>) -> Result<(), NoMemory>
    requires one { pool.old.width ≡ 1 }
    requires fits { let more = loose_nodes C.number loose.old.items in
        weighted (λ k. 1) pool.old.nodes + weighted (λ k. 1) more ≤ C.LIMIT }
    ensures width { OnOk result (pool.new.width ≡ 1) }
    ensures poured { let more = loose_nodes C.number loose.old.items in
        OnOk result (IsPoured pool.old.nodes more pool.new.nodes) }
{
    loose.sort_unstable_by_key(|lead| lead.number);
    pool.begin_run()?;
    let mut place = 0;
    while place < loose.len() {
        let lead = joined(loose, &mut place);
        add_one(pool, lead)?;
    }
    Ok(())
}

/// Adds the keys that were put aside, as a run of their own.
#[inline(always)]
pub fn add_loose<C: Count>(loose: &mut Vec<Lead<C>>, pool: &mut RunPool<C>) -> Result<(), NoMemory>
    requires one { 0 < length loose.old.items → pool.old.width ≡ 1 }
    requires fits { let more = loose_nodes C.number loose.old.items in
        weighted (λ k. 1) pool.old.nodes + weighted (λ k. 1) more ≤ C.LIMIT }
    ensures width { OnOk result (pool.new.width ≡ pool.old.width) }
    ensures poured { let more = loose_nodes C.number loose.old.items in
        OnOk result (IsPoured pool.old.nodes more pool.new.nodes) }
{
    if loose.is_empty() {
        return Ok(());
    }
    add_sorted(loose, pool)
}
