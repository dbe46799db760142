// The differences that are used, their absolute values and their signs.
ghost use Rattle.std.specs.Prelude.{◌≡◌, ◌≤◌, ◌++◌, pos, nat_abs, replicate, OnOk, IfOk};
ghost use Rattle.weights.specs.declared.TheConstants.{MAX};
ghost use Rattle.weights.specs.Labellings.{sign_lists};
ghost use Rattle.enumerate.specs.Walk.{BeginsWith};
ghost use Rattle.one_sample_tests.specs.SignedSamples.{magnitudes, nonzero, signs_of};
ghost use Rattle.one_sample_tests.specs.SampleSteps.{AreDifferences, subjects_of};

use midranks::Tie;
use std::alloc::Global;
use weights::{Bytes, Ints, NoMemory};

/// The differences that are not zero, in their order.
pub(crate) fn nonzero(alloc: Global, differences: &[i128]) -> Result<Ints, NoMemory>
    ensures { IfOk result (λ used. used ≡ nonzero differences.now) }
{
    let mut used = Ints::empty(alloc);
    for difference in differences {
        if *difference != 0 {
            used.push(*difference)?;
        }
    }
    Ok(used)
}

// The absolute value of a difference.
fn magnitude(difference: i128) -> i128
    requires { nat_abs difference ≤ MAX }
    ensures { result ≡ pos (nat_abs difference) }
{
    difference.unsigned_abs() as i128
}

/// The absolute values of differences.
pub(crate) fn magnitudes(alloc: Global, differences: &[i128]) -> Result<Ints, NoMemory>
    requires { AreDifferences differences.now }
    ensures { IfOk result (λ sizes. sizes ≡ magnitudes differences.now) }
{
    let mut sizes = Ints::empty(alloc);
    for difference in differences {
        sizes.push(magnitude(*difference))?;
    }
    Ok(sizes)
}

/// Which differences are positive.
pub(crate) fn signs(alloc: Global, differences: &[i128]) -> Result<Bytes, NoMemory>
    ensures { IfOk result (λ marks. marks ≡ signs_of differences.now) }
{
    let mut marks = Bytes::empty(alloc);
    for difference in differences {
        marks.push(u8::from(*difference > 0))?;
    }
    Ok(marks)
}

/// The first list of so many marks, all of them minus.
pub(crate) fn first_marks(alloc: Global, count: usize) -> Result<Bytes, NoMemory>
    ensures { IfOk result (BeginsWith (sign_lists count)) }
{
    let mut marks = Bytes::empty(alloc);
    for _mark in 0..count {
        marks.push(0)?;
    }
    Ok(marks)
}

/// The values with so many more of one.
pub(crate) fn push_times(values: &mut Ints, value: i128, times: u64) -> Result<(), NoMemory>
    ensures { OnOk result (values.new ≡ values.old ++ replicate times value) }
{
    for _time in 0..times {
        values.push(value)?;
    }
    Ok(())
}

/// The scores of the subjects of groups, group by group.
pub(crate) fn scores_of(alloc: Global, groups: &[Tie]) -> Result<Ints, NoMemory>
    ensures { IfOk result (λ scores. scores ≡ subjects_of groups.now) }
{
    let mut scores = Ints::empty(alloc);
    for i in 0..groups.len() {
        let group = groups[i];
        push_times(&mut scores, group.value, group.count)?;
    }
    Ok(scores)
}
