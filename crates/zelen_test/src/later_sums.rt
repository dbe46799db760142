// What sums of their first cells the strata from each one on can have, and how many labellings have
// each.
ghost use Rattle.std.specs.Prelude.{◌≡◌, ℕ, [], ◌∷◌, ◌+◌, ◌<◌, ◌≤◌, ◌^◌, length, IfOk, MatchOption, SomeIff};
ghost use Rattle.weights.specs.declared.TheConstants.{MAX};
ghost use Rattle.strata_cells.specs.StrataLimits.{AreSmall, IsSmall};
ghost use Rattle.zelen_test.specs.ZelenNetwork.{greatest_first_cells, least_first_cells, number_with};
ghost use Rattle.zelen_test.specs.ZelenSteps.{AreAllLaterSums, AreLaterSums, AreNumbers};
ghost use Rattle.zelen_test.specs.ZelenSteps.{AreSumRanges, AreSummed, IsCountable};
ghost use Rattle.zelen_test.specs.ZelenSteps.{IsKept, IsPast, StratumSeat};
ghost use Rattle.zelen_test.specs.ZelenSteps.{choice_from, choice_to, counted, counted_cell};

use std::alloc::Global;
use strata_cells::{Stratum, cell_weight};
use weights::{List, NoMemory, bounded_product, bounded_sum};

/// What sums of their first cells the strata from one on can have.
#[derive(Drop)]
pub(crate) struct LaterSums {
    /// The least sum, and the greatest.
    pub least: u64,
    pub most: u64,
    /// The least that can be left of the sum for them, and for each sum from it on, as far as it
    /// can be left, how many of their labellings have it.
    pub first: u64,
    pub numbers: List<u128>,
}

/// What the first cells of the strata from one on can have as their sum, and what can be left of
/// the whole sum before them.
#[derive(Clone, Copy, Debug, PartialEq, Eq)]
pub(crate) struct SumRanges {
    pub least: u64,
    pub most: u64,
    pub first: u64,
    pub last: u64,
}

// The least sum of the first cells of strata.
fn least_sum(strata: &[Stratum]) -> u64
    requires small { AreSmall strata.now }
    requires fits { least_first_cells strata.now < 2 ^ 62 }
    ensures { result ≡ least_first_cells strata.now }
{
    let mut all = 0;
    for stratum in strata {
        all += stratum.least_cell();
    }
    all
}

// And the greatest.
fn greatest_sum(strata: &[Stratum]) -> u64
    requires small { AreSmall strata.now }
    requires fits { greatest_first_cells strata.now < 2 ^ 62 }
    ensures { result ≡ greatest_first_cells strata.now }
{
    let mut all = 0;
    for stratum in strata {
        all += stratum.greatest_cell();
    }
    all
}

/// The least first cell of a stratum after which the later strata can have what is left.
pub(crate) fn choice_from(stratum: Stratum, later: &LaterSums, left: u64) -> u64
    requires { IsSmall stratum }
    ensures { result ≡ choice_from stratum later.now left }
{
    stratum.least_cell().max(left.saturating_sub(later.most))
}

/// And the greatest.
pub(crate) fn choice_to(stratum: Stratum, later: &LaterSums, left: u64) -> u64
    requires { IsSmall stratum }
    ensures { result ≡ choice_to stratum later.now left }
{
    stratum
        .greatest_cell()
        .min(left.saturating_sub(later.least))
}

// How many labellings have what is left with a first cell, or None exactly where they pass the
// greatest weight.
fn counted_cell(stratum: Stratum, later: &LaterSums, left: u64, cell: u64) -> Option<u128>
    requires small { IsSmall stratum }
    requires kept { IsKept stratum later.now left cell }
    ensures { let number = counted_cell stratum later.now left cell in
        SomeIff result (number ≤ MAX) number }
{
    let weight = cell_weight(stratum, cell)?;
    let place = (left - cell - later.first) as usize;
    bounded_product(weight, later.numbers.as_slice()[place])
}

// How many labellings have what is left, or None exactly where they pass the greatest weight.
fn counted(stratum: Stratum, later: &LaterSums, left: u64) -> Option<u128>
    requires { IsCountable stratum later.now left }
    ensures { let number = counted stratum later.now left in SomeIff result (number ≤ MAX) number }
{
    let from = choice_from(stratum, later, left);
    let to = choice_to(stratum, later, left);
    let mut all = 0;
    for cell in from..to + 1 {
        all = bounded_sum(all, counted_cell(stratum, later, left, cell)?)?;
    }
    Some(all)
}

// The numbers for all that can be left, or None where one passes the greatest weight.
fn numbers_of(
    alloc: Global,
    stratum: Stratum,
    later: &LaterSums,
    first: u64,
    last: u64,
) -> Result<Option<List<u128>>, NoMemory>
    requires meet { first ≤ last }
    requires small { last < 2 ^ 63 }
    requires each { (left : ℕ) → first ≤ left → left ≤ last → IsCountable stratum later.now left }
    ensures { IfOk result (λ found. MatchOption found (IsPast stratum later.now first last)
        (AreNumbers stratum later.now first (last + 1))) }
{
    let mut numbers = List::empty(alloc);
    for left in first..last + 1 {
        let Some(number) = counted(stratum, later, left) else {
            return Ok(None);
        };
        numbers.push(number)?;
    }
    Ok(Some(numbers))
}

// What is known of a stratum by what is known of those after it. It does nothing.
#[inline(always)]
fn stratum_seat(_strata: &[Stratum], _place: usize, _sum: u64, _later: &LaterSums)
    requires summed { AreSummed _strata.now _sum }
    requires place { _place < length _strata.now }
    requires later { AreLaterSums _strata.now _sum (_place + 1) _later.now }
    ensures { StratumSeat _strata.now _sum _place _later.now }
{}

// What the strata from one on can have, and what can be left for them.
fn ranges_of(
    strata: &[Stratum],
    place: usize,
    sum: u64,
    all_least: u64,
    all_most: u64,
    later: &LaterSums,
) -> SumRanges
    requires summed { AreSummed strata.now sum }
    requires place { place < length strata.now }
    requires least { all_least ≡ least_first_cells strata.now }
    requires most { all_most ≡ greatest_first_cells strata.now }
    requires later { AreLaterSums strata.now sum (place + 1) later.now }
    ensures { AreSumRanges strata.now sum place later.now result }
{
    stratum_seat(strata, place, sum, later);
    let stratum = strata[place];
    let least = later.least + stratum.least_cell();
    let most = later.most + stratum.greatest_cell();
    SumRanges {
        least,
        most,
        first: (sum + most).saturating_sub(all_most).max(least),
        last: (sum + least).saturating_sub(all_least).min(most),
    }
}

// What is known of the strata from one on, by what is known of those after it; or None where the
// labellings with the sum pass the greatest weight.
fn sums_from(
    alloc: Global,
    strata: &[Stratum],
    place: usize,
    sum: u64,
    all_least: u64,
    all_most: u64,
    later: &LaterSums,
) -> Result<Option<LaterSums>, NoMemory>
    requires summed { AreSummed strata.now sum }
    requires place { place < length strata.now }
    requires least { all_least ≡ least_first_cells strata.now }
    requires most { all_most ≡ greatest_first_cells strata.now }
    requires later { AreLaterSums strata.now sum (place + 1) later.now }
    ensures { IfOk result (λ found. MatchOption found (MAX < number_with strata.now sum)
        (AreLaterSums strata.now sum place)) }
{
    let ranges = ranges_of(strata, place, sum, all_least, all_most, later);
    let Some(numbers) = numbers_of(alloc, strata[place], later, ranges.first, ranges.last)? else {
        return Ok(None);
    };
    Ok(Some(LaterSums {
        least: ranges.least,
        most: ranges.most,
        first: ranges.first,
        numbers,
    }))
}

// What is known where no stratum remains.
fn end_of(alloc: Global) -> Result<LaterSums, NoMemory>
    ensures least { IfOk result (λ end. end.least ≡ 0) }
    ensures most { IfOk result (λ end. end.most ≡ 0) }
    ensures first { IfOk result (λ end. end.first ≡ 0) }
    ensures numbers { IfOk result (λ end. end.numbers ≡ 1 ∷ []) }
{
    let mut numbers = List::empty(alloc);
    numbers.push(1)?;
    Ok(LaterSums {
        least: 0,
        most: 0,
        first: 0,
        numbers,
    })
}

/// What is known of the strata from each one on, the last first, or None exactly where the
/// labellings with the sum pass the greatest weight.
///
/// What can be left before a stratum is kept to what the strata before it can leave. So each number
/// is at most that of all labellings with the sum, and where the sum is near an end there are few.
pub(crate) fn all_later_sums(
    alloc: Global,
    strata: &[Stratum],
    sum: u64,
) -> Result<Option<Vec<LaterSums>>, NoMemory>
    requires { AreSummed strata.now sum }
    ensures { IfOk result (λ found. MatchOption found (MAX < number_with strata.now sum)
        (λ later_sums. AreAllLaterSums strata.now sum 0 later_sums.items)) }
{
    let least = least_sum(strata);
    let most = greatest_sum(strata);
    let mut later_sums = Vec::new(alloc);
    later_sums.push(end_of(alloc)?)?;
    for done in 0..strata.len() {
        let place = strata.len() - done - 1;
        let later = &later_sums[done];
        let Some(next) = sums_from(alloc, strata, place, sum, least, most, later)? else {
            return Ok(None);
        };
        later_sums.push(next)?;
    }
    Ok(Some(later_sums))
}
