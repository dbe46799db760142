// Differences that are prepared for their test.
ghost use Rattle.std.specs.Prelude.{◌≡◌, ◌≤◌, length};
ghost use Rattle.weights.specs.Wide.{Prepares};
ghost use Rattle.midranks.specs.declared.TheConstants.{MOST_VALUES};
ghost use Rattle.table_reader.specs.Data.{table_data_of};
ghost use Rattle.one_sample_tests.specs.SignedSamples.{discordant, nonzero, one_sample_test, sample_of};
ghost use Rattle.one_sample_tests.specs.SampleSteps.{AreDifferences};

use crate::kinds::SignKind;
use crate::mark_sum::MarkSum;
use crate::marks::push_times;
use crate::scored_marks::made_of;
use labelled::Unweighted;
use sample_reader::Pairs;
use std::alloc::Global;
use table_reader::Table;
use weights::{Ints, PrepareFault, WideOf, power};

/// A test of one sample whose data are checked.
pub type OneSample = Unweighted<MarkSum>;

// How many differences are not zero.
fn number_used(differences: &[i128]) -> u64
    ensures { result ≡ length (nonzero differences.now) }
{
    differences
        .iter()
        .filter(|difference| **difference != 0)
        .count() as u64
}

/// How many pairs are used: those whose difference is not zero.
pub fn used_pairs(pairs: &Pairs) -> u64
    ensures { result ≡ length (nonzero pairs.now.differences) }
{
    number_used(pairs.differences.as_slice())
}

// The test of these differences.
fn prepare(alloc: Global, kind: SignKind, differences: Ints) -> Result<OneSample, PrepareFault>
    requires few { length differences ≤ MOST_VALUES }
    requires fits { AreDifferences differences }
    ensures { Prepares one_sample_test (sample_of kind differences) result }
{
    let Some(total) = power(2, number_used(differences.as_slice())) else {
        return Err(PrepareFault::TooWide(WideOf::Total));
    };
    let (made, frame) = made_of(alloc, kind, differences.as_slice(), total)?;
    let sum = MarkSum::new(kind, differences, made);
    Ok(Unweighted::of(sum, frame))
}

/// Prepares the test of pairs by the signs of their differences: the sum of the scores of the
/// positive ones, over all ways to mark those that are not zero by plus and minus.
///
/// # Errors
/// `TooWide(Total)` where there are more lists of marks than `weights::MAX`, which is where more
/// than 126 differences are not zero. Or else `TooWide(Statistic)` where twice the sum of the
/// scores passes it. Or else `NoMemory` where memory runs out.
pub fn prepare_pairs(
    alloc: Global,
    kind: SignKind,
    pairs: &Pairs,
) -> Result<OneSample, PrepareFault>
    ensures { Prepares one_sample_test (sample_of kind pairs.now.differences) result }
{
    prepare(alloc, kind, pairs.differences.copy()?)
}

/// Prepares the test of the discordant pairs of a table of two rows and two columns, those of its
/// second and third cell: how many are of the second cell, over all ways to mark each by plus and
/// minus.
///
/// # Errors
/// `TooWide(Total)` where there are more lists of marks than `weights::MAX`, which is where there
/// are more than 126 discordant pairs. Or else `NoMemory` where memory runs out.
pub fn prepare_mcnemar(alloc: Global, table: &Table) -> Result<OneSample, PrepareFault>
    requires rows { table.now.rows ≡ 2 }
    requires columns { table.now.columns ≡ 2 }
    ensures { Prepares one_sample_test (discordant (table_data_of table.now)) result }
{
    let cells = table.cells.as_slice();
    let (plus, minus) = (cells[1], cells[2]);
    // Differences are made only where there are few.
    let Some(_total) = power(2, plus + minus) else {
        return Err(PrepareFault::TooWide(WideOf::Total));
    };
    let mut differences = Ints::empty(alloc);
    push_times(&mut differences, 1, plus)?;
    push_times(&mut differences, -1, minus)?;
    prepare(alloc, SignKind::Sign, differences)
}
