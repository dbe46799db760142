// The scores of places.
ghost use Rattle.std.specs.Prelude.{◌≡◌, ◌+◌, ◌<◌, ◌≤◌, IfOk};
ghost use Rattle.std.specs.List.{sum};
ghost use Rattle.midranks.specs.declared.TheConstants.{MOST_VALUES};
ghost use Rattle.scores.specs.PlaceScores.{multiple_to, place_scores, savage_place};
ghost use Rattle.scores.specs.PlaceSteps.{place_score};
ghost use Rattle.weights.specs.declared.TheConstants.{MAX};

use crate::kinds::ScoreFault;
use midranks::MOST_VALUES;
use std::alloc::Global;
use weights::{List, NoMemory, bounded_sum};

/// Scores that a place has by itself, without the sum of those before it.
#[derive(Clone, Copy)]
pub(crate) enum PlaceKind {
    Ansari,
    Mood,
    Median,
}

// The score of place p of n, from 1 on.
fn score_at(kind: PlaceKind, n: u64, p: u64) -> u128
    requires some { 0 < p }
    requires within { p ≤ n }
    requires most { n ≤ MOST_VALUES }
    ensures { result ≡ place_score kind n p }
{
    match kind {
        PlaceKind::Ansari => p.min(n + 1 - p) as u128,
        PlaceKind::Mood => {
            let distance = (2 * p).abs_diff(n + 1) as u128;
            distance * distance
        }
        PlaceKind::Median => u128::from(2 * p > n + 1),
    }
}

/// The scores of the places 1 to n.
pub(crate) fn places(alloc: Global, kind: PlaceKind, n: u64) -> Result<List<u128>, NoMemory>
    requires { n ≤ MOST_VALUES }
    ensures { IfOk result (λ places. places ≡ place_scores (place_score kind n) n) }
{
    let mut places = List::<u128>::empty(alloc);
    for before in 0..n {
        places.push(score_at(kind, n, before + 1))?;
    }
    Ok(places)
}

/// Savage's scores of the places 1 to n, each the sum of the last p quotients of `multiple` by 1 to
/// n. They are refused where one of them passes the greatest statistic.
pub(crate) fn savage_places(alloc: Global, n: u64, multiple: u128) -> Result<List<u128>, ScoreFault>
    requires { multiple ≡ multiple_to n }
    ensures places { IfOk result (λ places. places ≡ place_scores (savage_place n) n) }
    ensures too_wide { result ≡ Err ScoreFault.TooWide
        → MAX < sum (place_scores (savage_place n) n) }
{
    let mut places = List::<u128>::empty(alloc);
    let mut score = 0;
    for before in 0..n {
        let quotient = multiple / (n - before) as u128;
        score = bounded_sum(score, quotient).ok_or(ScoreFault::TooWide)?;
        places.push(score)?;
    }
    Ok(places)
}
