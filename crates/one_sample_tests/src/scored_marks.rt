// The differences of a sample, scored and grouped, and what is said of their test.
ghost use Rattle.std.specs.Prelude.{◌≡◌, ◌≤◌, ◌*◌, ◌^◌, length, pos};
ghost use Rattle.weights.specs.Conditional.{distance};
ghost use Rattle.weights.specs.declared.TheConstants.{MAX};
ghost use Rattle.midranks.specs.declared.TheConstants.{MOST_VALUES};
ghost use Rattle.scores.specs.Scores.{labelled_sum};
ghost use Rattle.weights.specs.Numbers.{absolute_sum};
ghost use Rattle.one_sample_tests.specs.SignedSamples.{nonzero, sample_of};
ghost use Rattle.one_sample_tests.specs.SampleSteps.{AreDifferences, AreNotNegative, IsMadeOf, IsSignScored};

use crate::kinds::SignKind;
use crate::marks::{magnitudes, nonzero, signs};
use midranks::{Ties, tie_groups};
use scores::{ScoreFault, ScoreKind, Scored, labelled_sum, scored};
use std::alloc::Global;
use weights::{Frame, Ints, PrepareFault, Rule, WideOf, bounded_product};

/// The differences of a sample that are not zero, scored.
#[derive(Drop)]
pub(crate) struct ScoredMarks {
    /// Their scores, in the order of the file.
    pub scores: Ints,
    /// How many share each score, ascending.
    pub groups: Ties,
}

// A score of 1 for each.
fn ones(alloc: Global, sizes: &[i128]) -> Result<Scored, ScoreFault>
    requires { length sizes.now ≤ MOST_VALUES }
    ensures { IsSignScored SignKind.Sign sizes.now result }
{
    let mut list = Ints::empty(alloc);
    for _size in sizes {
        list.push(1)?;
    }
    Ok(Scored {
        list,
        scale: 1,
        sum: sizes.len() as u128,
    })
}

// The scores of absolute differences by a kind.
fn sign_scored(alloc: Global, kind: SignKind, sizes: &[i128]) -> Result<Scored, ScoreFault>
    requires { length sizes.now ≤ MOST_VALUES }
    ensures { IsSignScored kind sizes.now result }
{
    match kind {
        SignKind::SignedRank => scored(alloc, ScoreKind::Wilcoxon, sizes),
        SignKind::Sign => ones(alloc, sizes),
        SignKind::RawSigned => scored(alloc, ScoreKind::Raw, sizes),
    }
}

// What is said of the test, of whose lists of marks there are so many.
fn frame_of(scored: &Scored, marks: &[u8], total: u128) -> Frame
    requires sum { scored.now.sum ≡ absolute_sum scored.now.list }
    requires some { AreNotNegative scored.now.list }
    requires fits { 2 * absolute_sum scored.now.list ≤ MAX }
    ensures { let scores = scored.now.list in
        let centre = pos (absolute_sum scores) in
        let statistic = labelled_sum 1 scores marks.now in
        result ≡ record {
          statistic = statistic;
          scale = scored.now.scale;
          total = total;
          two = Rule.Far 2 centre (distance 2 centre statistic);
        } }
{
    let statistic = labelled_sum(scored.list.as_slice(), marks, 1);
    Frame {
        statistic,
        scale: scored.scale,
        total,
        two: Rule::far(2, scored.sum as i128, statistic),
    }
}

/// The differences of a sample that are not zero, scored, and what is said of their test with so
/// many lists of marks. They are refused exactly where the test's bound is too wide.
pub(crate) fn made_of(
    alloc: Global,
    kind: SignKind,
    differences: &[i128],
    total: u128,
) -> Result<(ScoredMarks, Frame), PrepareFault>
    requires few { length differences.now ≤ MOST_VALUES }
    requires size { AreDifferences differences.now }
    requires total { total ≡ 2 ^ length (nonzero differences.now) }
    requires fits { total ≤ MAX }
    ensures { IsMadeOf (sample_of kind differences.now) result }
{
    let used = nonzero(alloc, differences)?;
    let sizes = magnitudes(alloc, used.as_slice())?;
    let marks = signs(alloc, used.as_slice())?;
    let scored = match sign_scored(alloc, kind, sizes.as_slice()) {
        Ok(scored) => scored,
        Err(ScoreFault::TooWide) => return Err(PrepareFault::TooWide(WideOf::Statistic)),
        Err(ScoreFault::NoMemory) => return Err(PrepareFault::NoMemory),
    };
    let Some(_bound) = bounded_product(2, scored.sum) else {
        return Err(PrepareFault::TooWide(WideOf::Statistic));
    };
    let groups = tie_groups(alloc, scored.list.as_slice())?;
    let frame = frame_of(&scored, marks.as_slice(), total);
    let scores = scored.list;
    Ok((ScoredMarks { scores, groups }, frame))
}
