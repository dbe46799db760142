// The pooled sample of groups.
ghost use Rattle.std.specs.Prelude.{◌≡◌, length, IfOk};
ghost use Rattle.sample_reader.specs.Data.{data_of};
ghost use Rattle.weights.specs.InOrder.{in_order};
ghost use Rattle.sample_reader.specs.PooledSample.{may_precede, pooled, paired_subjects, values_of};

use crate::samples::Groups;
use std::alloc::Global;
use weights::{Ints, NoMemory};

/// A subject: its value, in units of 10^-18, and its label.
#[derive(Clone, Copy, Debug, PartialEq, Eq, PartialOrd, Ord)]
pub struct Subject {
    pub value: i128,
    pub label: u64,
}

// The subjects in the order of the file.
fn subjects_in_order(
    alloc: Global,
    values: &[i128],
    labels: &[u64],
) -> Result<Vec<Subject>, NoMemory>
    requires { length labels.now ≡ length values.now }
    ensures { IfOk result (λ subjects. subjects.items ≡ paired_subjects values.now labels.now) }
{
    let mut subjects = Vec::new(alloc);
    for i in 0..values.len() {
        subjects.push(Subject {
            value: values[i],
            label: labels[i],
        })?;
    }
    Ok(subjects)
}

/// The subjects of these values and labels in ascending order of their values, those of one value
/// in the order of their labels.
pub fn ordered_subjects(
    alloc: Global,
    values: &[i128],
    labels: &[u64],
) -> Result<Vec<Subject>, NoMemory>
    requires { length labels.now ≡ length values.now }
    ensures { IfOk result (λ subjects.
        subjects.items ≡ in_order may_precede (paired_subjects values.now labels.now)) }
{
    let mut subjects = subjects_in_order(alloc, values, labels)?;
    subjects.sort_unstable();
    Ok(subjects)
}

/// The pooled sample: the subjects of all groups in ascending order of their values, those of one
/// value in the order of their groups.
pub fn pooled_subjects(alloc: Global, groups: &Groups) -> Result<Vec<Subject>, NoMemory>
    ensures { IfOk result (λ subjects. subjects.items ≡ pooled (data_of groups.now)) }
{
    ordered_subjects(alloc, groups.values.as_slice(), groups.members.as_slice())
}

/// The values of subjects, in their order.
pub fn values(alloc: Global, subjects: &[Subject]) -> Result<Ints, NoMemory>
    ensures { IfOk result (λ values. values ≡ values_of subjects.now) }
{
    let mut values = Ints::empty(alloc);
    for subject in subjects {
        values.push(subject.value)?;
    }
    Ok(values)
}
