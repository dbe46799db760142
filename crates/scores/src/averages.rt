// Place scores, averaged over equal values.
ghost use Rattle.std.specs.Prelude.{◌≡◌, ◌+◌, ◌*◌, ◌/◌, ◌<◌, ◌≤◌, pos, map, length, IfOk};
ghost use Rattle.std.specs.List.{All, sum};
ghost use Rattle.midranks.specs.Ties.{values_in};
ghost use Rattle.scores.specs.Scores.{averaged, common_size};
ghost use Rattle.scores.specs.ScoreSteps.{AreScoredBy, group_scores};
ghost use Rattle.weights.specs.declared.TheConstants.{MAX};

use crate::kinds::{ScoreFault, Scored, TieScores};
use crate::multiples::multiple_of_sizes;
use crate::spread::spread;
use crate::sums::total;
use midranks::{Tie, tie_groups};
use std::alloc::Global;
use weights::{Ints, NoMemory, bounded_product};

// The sum of numbers that do not sum past the greatest statistic.
fn sum_of(numbers: &[u128]) -> u128
    requires { sum numbers.now ≤ MAX }
    ensures { result ≡ sum numbers.now }
{
    numbers.iter().sum()
}

// The mean of place scores, times a multiple of their number.
fn mean(shared: &[u128], multiple: u128) -> u128
    requires some { 0 < length shared.now }
    requires above { 0 < multiple }
    requires fits { multiple * sum shared.now ≤ MAX }
    ensures value { result ≡ sum shared.now * (multiple / length shared.now) }
    ensures most { result ≤ MAX }
{
    sum_of(shared) * (multiple / shared.len() as u128)
}

// The score of each tie group: the mean of its place scores, times a multiple of all sizes.
fn means(alloc: Global, ties: &[Tie], places: &[u128], multiple: u128) -> Result<Ints, NoMemory>
    requires some { All (λ tie. 0 < tie.count) ties.now }
    requires as_many { values_in ties.now ≡ length places.now }
    requires above { 0 < multiple }
    requires fits { multiple * sum places.now ≤ MAX }
    ensures { IfOk result (λ scores. scores ≡ map pos (group_scores multiple ties.now places.now)) }
{
    let mut scores = Ints::empty(alloc);
    let mut later = places;
    for tie in ties {
        let (shared, rest) = later.split_at(tie.count as usize);
        scores.push(mean(shared, multiple) as i128)?;
        later = rest;
    }
    Ok(scores)
}

/// The scores of values by scores of their places, `unit` times as fine as the tie sizes ask for.
pub(crate) fn averaged(
    alloc: Global,
    values: &[i128],
    places: &[u128],
    unit: u128,
) -> Result<TieScores, ScoreFault>
    requires as_many { length places.now ≡ length values.now }
    requires some { 0 < unit }
    requires most { unit ≤ MAX }
    requires small { 1 < length values.now → unit ≤ 2 * sum places.now }
    ensures { let scale = common_size values.now * unit in
        AreScoredBy (λ v. pos (averaged places.now values.now v)) scale values.now result }
{
    let groups = tie_groups(alloc, values)?;
    let ties = groups.as_slice();
    let multiple = multiple_of_sizes(ties).ok_or(ScoreFault::TooWide)?;
    let total = total(places).ok_or(ScoreFault::TooWide)?;
    let sum = bounded_product(multiple, total).ok_or(ScoreFault::TooWide)?;
    let scores = means(alloc, ties, places, multiple)?;
    let list = spread(alloc, ties, scores.as_slice(), values)?;
    let scale = multiple * unit;
    Ok(TieScores {
        ties: groups,
        scores,
        all: Scored { list, scale, sum },
    })
}
