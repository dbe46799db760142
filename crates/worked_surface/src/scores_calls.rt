// The public calls of `scores`.
ghost use Rattle.std.specs.Prelude.{◌*◌, ◌<◌, ◌^◌, ◌↔◌, ◌≡◌, ◌≤◌, IfOk, IsTrue, OnOk, length, nat_abs};
ghost use Rattle.std.specs.List.{All};
ghost use Rattle.scores.specs.Scores.{AreScores, score_sum};
ghost use Rattle.weights.specs.declared.TheConstants.{MAX};

use scores::{ScoreFault, ScoreKind, Scored};
use std::alloc::Global;
use weights::Ints;

/// The scores of values, or why not.
pub fn scored(alloc: Global, kind: ScoreKind, values: &[i128]) -> Result<Scored, ScoreFault>
    requires few { length values.now ≤ 10000 }
    requires small { All (λ value. nat_abs value < 2 * 10 ^ 36) values.now }
    ensures scores { IfOk result (AreScores kind values.now) }
    ensures fits { OnOk result (score_sum kind values.now ≤ MAX) }
    ensures too_wide { result ≡ Err ScoreFault.TooWide → MAX < score_sum kind values.now }
{
    scores::scored(alloc, kind, values)
}

/// Scored values, of their three parts.
pub fn scored_parts(list: Ints, scale: u128, sum: u128) -> Scored
    ensures list { result.list ≡ list }
    ensures scale { result.scale ≡ scale }
    ensures sum { result.sum ≡ sum }
{
    Scored { list, scale, sum }
}

/// The place of a kind of score. There are six, and no other.
pub fn kind_place(kind: ScoreKind) -> u64
    ensures { result < 6 }
{
    match kind {
        ScoreKind::Wilcoxon => 0,
        ScoreKind::Ansari => 1,
        ScoreKind::Mood => 2,
        ScoreKind::Savage => 3,
        ScoreKind::Median => 4,
        ScoreKind::Raw => 5,
    }
}

/// Whether the scores are too wide. Faults are two, and no other.
pub fn is_too_wide(fault: ScoreFault) -> bool
    ensures { IsTrue result ↔ (fault ≡ ScoreFault.TooWide) }
{
    match fault {
        ScoreFault::TooWide => true,
        ScoreFault::NoMemory => false,
    }
}
