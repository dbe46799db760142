// Counts of labellings by their concordant pairs, group after group.
ghost use Rattle.std.specs.Prelude.{◌≡◌, ℕ, ◌+◌, ◌-◌, ◌*◌, ◌<◌, ◌≤◌, ◌∷◌, length, get_or, IfOk, OnOk};
ghost use Rattle.std.specs.List.{sum};
ghost use Rattle.weights.specs.Labellings.{number_of_labellings};
ghost use Rattle.weights.specs.declared.TheConstants.{MAX};
ghost use Rattle.concordant_pairs.specs.ConcordantPairs.{SumsAlike, pairs_across, concordant_count};
ghost use Rattle.concordant_pairs.specs.ConcordantSteps.{AreCounts, AreMixed, before, mixed_count};
ghost use Rattle.concordant_pairs.specs.ConcordantSteps.{mixed_total};

use std::alloc::Global;
use std::mem;
use weights::NoMemory;

// The count at a place of a list, which goes on with 0.
#[inline(always)]
fn at(counts: &[u128], place: usize) -> u128
    ensures { result ≡ get_or counts.now place 0 }
{
    if place < counts.len() {
        counts[place]
    } else {
        0
    }
}

// The count that stands so many places before one.
#[inline(always)]
fn before(counts: &[u128], place: usize, places: usize) -> u128
    ensures { result ≡ before counts.now place places }
{
    if places <= place {
        at(counts, place - places)
    } else {
        0
    }
}

// The count of one number of concordant pairs where one of two groups has a subject more, by the
// counts of lesser numbers and by those without it.
#[inline(always)]
fn next_count(
    rest: &[u64],
    group: usize,
    other: usize,
    old: &[u128],
    new: &[u128],
    place: usize,
) -> u128
    requires group { 1 ≤ group }
    requires few { group + other ≤ 10000 }
    requires old { AreMixed rest.now (group - 1) other old.now }
    requires new { (u : ℕ) → u < place → get_or new.now u 0 ≡ mixed_count rest.now group other u }
    requires fits { mixed_total rest.now group other ≤ MAX }
    ensures { result ≡ mixed_count rest.now group other place }
{
    before(new, place, group) + at(old, place) - before(old, place, group + other)
}

// The counts where one of two groups has a subject more.
fn with_subject(
    rest: &[u64],
    group: usize,
    other: usize,
    len: usize,
    old: &[u128],
    new: &mut Vec<u128>,
) -> Result<(), NoMemory>
    requires group { 1 ≤ group }
    requires few { group + other ≤ 10000 }
    requires len { len ≡ group * other + pairs_across rest.now + 1 }
    requires old { AreMixed rest.now (group - 1) other old.now }
    requires fits { mixed_total rest.now group other ≤ MAX }
    ensures { OnOk result (AreMixed rest.now group other new.new.items) }
{
    new.clear();
    for place in 0..len {
        let count = next_count(rest, group, other, old, new, place);
        new.push(count)?;
    }
    Ok(())
}

// The counts with two groups more.
fn with_two(
    alloc: Global,
    rest: &[u64],
    group: usize,
    other: usize,
    counts: Vec<u128>,
) -> Result<Vec<u128>, NoMemory>
    requires few { group + other ≤ 10000 }
    requires rest { sum rest.now ≤ 10000 }
    requires counts { AreCounts rest.now counts.items }
    requires fits { mixed_total rest.now group other ≤ MAX }
    ensures { IfOk result (λ all. AreMixed rest.now group other all.items) }
{
    let len = counts.len();
    let mut counts = counts;
    let mut next = Vec::new(alloc);
    for before in 0..group {
        let subjects = before + 1;
        with_subject(
            rest,
            subjects,
            other,
            subjects * other + len,
            &counts,
            &mut next,
        )?;
        mem::swap(&mut counts, &mut next);
    }
    Ok(counts)
}

// The counts with a group before the others, which have so many subjects. The subjects of the
// lesser of both come one by one.
fn with_group(
    alloc: Global,
    rest: &[u64],
    later: usize,
    size: usize,
    counts: Vec<u128>,
) -> Result<Vec<u128>, NoMemory>
    requires later { later ≡ sum rest.now }
    requires few { size + later ≤ 10000 }
    requires counts { AreCounts rest.now counts.items }
    requires fits { number_of_labellings (size ∷ rest.now) ≤ MAX }
    ensures { IfOk result (λ all. AreCounts (size ∷ rest.now) all.items) }
{
    if size <= later {
        with_two(alloc, rest, size, later, counts)
    } else {
        with_two(alloc, rest, later, size, counts)
    }
}

/// How many labellings of groups of these sizes have each number of concordant pairs, from that of
/// no pair to that of all: a pair is concordant where the later subject is of the later group.
/// Groups are added one by one, the last first. A group of j subjects and others of m add as two
/// groups do: with a j-th subject the counts are those before, as a polynomial in q, multiplied by
/// 1 - q^(m + j) and divided by 1 - q^j, as in the numbers of Gauss.
pub fn concordant_counts(alloc: Global, sizes: &[u64]) -> Result<Vec<u128>, NoMemory>
    requires few { sum sizes.now ≤ 10000 }
    requires fits { number_of_labellings sizes.now ≤ MAX }
    ensures alike { IfOk result (λ counts. SumsAlike sizes.now counts.items) }
    ensures long { IfOk result (λ counts. length counts.items ≡ pairs_across sizes.now + 1) }
    ensures each { IfOk result (λ counts.
        (u : ℕ) → get_or counts.items u 0 ≡ concordant_count sizes.now u) }
{
    let mut counts = vec![in alloc; 1u128; 1]?;
    let mut later = 0usize;
    let mut at = sizes.len();
    while at > 0 {
        at -= 1;
        let size = sizes[at] as usize;
        counts = with_group(alloc, &sizes[at + 1..], later, size, counts)?;
        later += size;
    }
    Ok(counts)
}
