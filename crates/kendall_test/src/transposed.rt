// Kendall's test transposed: the two values of each subject change places.
ghost use Rattle.std.specs.Prelude.{◌≡◌, length, IfOk, IfSome};
ghost use Rattle.sample_reader.specs.Twins.{TwinData};
ghost use Rattle.sample_reader.specs.Data.{twin_data_of};
ghost use Rattle.kendall_test.specs.TransposedKendall.{AreInRatio, transposed_twins};

use crate::kendall_made::kendall_subjects;
use crate::pair_order::PairOrder;
use crate::room_work::is_less_work_transposed;
use concordant_pairs::are_distinct;
use sample_reader::Twins;
use std::alloc::Global;
use weights::{NoMemory, PrepareFault};

/// Kendall's test of two values of each subject, and the test with the two in each other's place. K
/// is the same, the numerators of each tail are in the ratio of the totals, and so are the lines of
/// the distributions.
pub fn transposed_tests()
    ensures { (t : TwinData) → length t.second ≡ length t.first
        → AreInRatio t (transposed_twins t) }
{}

// The sample with the two values of each subject in each other's place.
fn transposed_sample(sample: &Twins) -> Result<Twins, NoMemory>
    ensures { IfOk result (λ transposed.
        twin_data_of transposed ≡ transposed_twins (twin_data_of sample.now)) }
{
    Ok(Twins {
        rows: sample.rows,
        first: sample.second.copy()?,
        second: sample.first.copy()?,
    })
}

// Whether the test transposed serves, where some first values are equal: no two second ones are, or
// it is less work.
fn serves_transposed(columns: &[u64], rows: &[u64]) -> bool {
    !are_distinct(columns) && (are_distinct(rows) || is_less_work_transposed(columns, rows))
}

/// The test transposed, where it serves. None where it does not, and where its total is too wide.
pub(crate) fn transposed_of(alloc: Global, order: &PairOrder) -> Result<Option<PairOrder>, NoMemory>
    ensures { IfOk result (λ found. IfSome found (λ transposed.
        transposed ≡ transposed_twins order.now)) }
{
    let made = order.made();
    if !serves_transposed(made.columns.as_slice(), made.rows.as_slice()) {
        return Ok(None);
    }
    let sample = transposed_sample(order.sample())?;
    let subjects = kendall_subjects(alloc, &sample)?;
    match PairOrder::of(alloc, sample, &subjects) {
        Ok(transposed) => Ok(Some(transposed)),
        Err(PrepareFault::NoMemory) => Err(NoMemory),
        Err(PrepareFault::TooWide(_)) => Ok(None),
    }
}
