// The scores of values, by kind.
ghost use Rattle.std.specs.Prelude.{◌≡◌, ◌*◌, ◌<◌, ◌≤◌, length, IfOk, OnOk};
ghost use Rattle.midranks.specs.declared.TheConstants.{MOST_VALUES};
ghost use Rattle.scores.specs.PlaceSteps.{place_score, unit_of};
ghost use Rattle.scores.specs.ScoreSteps.{AreScoredBy};
ghost use Rattle.scores.specs.Scores.{AreTieScores, AreScores, averaged_by, common_size};
ghost use Rattle.scores.specs.Scores.{scale_of, score_of, score_sum};
ghost use Rattle.weights.specs.declared.TheConstants.{MAX};

use crate::averages::averaged;
use crate::kinds::{ScoreFault, ScoreKind, Scored, TieScores};
use crate::multiples::multiple_to;
use crate::places::{PlaceKind, places, savage_places};
use crate::ranks::wilcoxon;
use crate::raw::raw;
use midranks::MOST_VALUES;
use std::alloc::Global;

// Scores by a score that each place has by itself.
fn by_places(
    alloc: Global,
    values: &[i128],
    kind: PlaceKind,
    unit: u128,
) -> Result<TieScores, ScoreFault>
    requires rows { length values.now ≤ MOST_VALUES }
    requires units { unit ≡ unit_of kind }
    ensures { let scale = common_size values.now * unit in
        AreScoredBy (averaged_by (place_score kind) values.now) scale values.now result }
{
    let places = places(alloc, kind, values.len() as u64)?;
    averaged(alloc, values, places.as_slice(), unit)
}

// Savage's scores.
fn savage(alloc: Global, values: &[i128]) -> Result<TieScores, ScoreFault>
    ensures { let kind = ScoreKind.Savage in
        AreScoredBy (score_of kind values.now) (scale_of kind values.now) values.now result }
{
    let n = values.len() as u64;
    let multiple = multiple_to(n).ok_or(ScoreFault::TooWide)?;
    let places = savage_places(alloc, n, multiple)?;
    averaged(alloc, values, places.as_slice(), multiple)
}

// The scores of a kind.
fn of_kind(alloc: Global, kind: ScoreKind, values: &[i128]) -> Result<TieScores, ScoreFault>
    requires { length values.now ≤ MOST_VALUES }
    ensures { AreScoredBy (score_of kind values.now) (scale_of kind values.now) values.now result }
{
    match kind {
        ScoreKind::Wilcoxon => wilcoxon(alloc, values),
        ScoreKind::Ansari => by_places(alloc, values, PlaceKind::Ansari, 1),
        ScoreKind::Mood => by_places(alloc, values, PlaceKind::Mood, 4),
        ScoreKind::Savage => savage(alloc, values),
        ScoreKind::Median => by_places(alloc, values, PlaceKind::Median, 1),
        ScoreKind::Raw => raw(alloc, values),
    }
}

/// The scores of a kind of at most `midranks::MOST_VALUES` values in units of 10^-18, as whole
/// numbers over one scale: of each tie group, and of each value.
///
/// # Errors
///
/// [`ScoreFault::TooWide`] only where the sum of the absolute scores of all values passes
/// `weights::MAX`, and then there are no scores; [`ScoreFault::NoMemory`] where memory ran out.
pub fn tie_scores(alloc: Global, kind: ScoreKind, values: &[i128]) -> Result<TieScores, ScoreFault>
    requires { length values.now ≤ MOST_VALUES }
    ensures scores { IfOk result (AreTieScores kind values.now) }
    ensures fits { OnOk result (score_sum kind values.now ≤ MAX) }
    ensures too_wide { result ≡ Err ScoreFault.TooWide → MAX < score_sum kind values.now }
{
    of_kind(alloc, kind, values)
}

/// The scores of a kind of each value alone.
///
/// # Errors
///
/// As those of [`tie_scores`].
pub fn scored(alloc: Global, kind: ScoreKind, values: &[i128]) -> Result<Scored, ScoreFault>
    requires { length values.now ≤ MOST_VALUES }
    ensures scores { IfOk result (AreScores kind values.now) }
    ensures fits { OnOk result (score_sum kind values.now ≤ MAX) }
    ensures too_wide { result ≡ Err ScoreFault.TooWide → MAX < score_sum kind values.now }
{
    let scored = tie_scores(alloc, kind, values)?;
    Ok(scored.all)
}
