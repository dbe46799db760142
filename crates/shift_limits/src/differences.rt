// The differences between two samples.
ghost use Rattle.std.specs.Prelude.{◌≡◌, ◌+◌, ◌-◌, ◌^◌, ◌<◌, ◌≤◌, ◌-ℤ◌, int_le, nat_abs};
ghost use Rattle.std.specs.Prelude.{◌++◌, length, map, IfOk, OnOk};
ghost use Rattle.sample_reader.specs.Data.{data_of};
ghost use Rattle.sample_reader.specs.Kept.{AreDifferences, AreInRange};
ghost use Rattle.weights.specs.InOrder.{in_order};
ghost use Rattle.shift_limits.specs.Differences.{difference_at, differences_between, middle_of};
ghost use Rattle.shift_limits.specs.Limits.{limit_at};
ghost use Rattle.shift_limits.specs.LimitSteps.{AreMade};

use crate::samples::labelled_values;
use sample_reader::Groups;
use scores::whole_values;
use std::alloc::Global;
use weights::NoMemory;

/// The differences of the values of the second sample less those of the first.
#[derive(Drop)]
pub(crate) struct Differences {
    /// The power of ten that they are multiplied by.
    pub places: u128,
    /// They themselves, ascending.
    pub list: Vec<i128>,
}

// Adds what each of the later values is less this earlier one.
fn push_differences(list: &mut Vec<i128>, earlier: i128, later: &[i128]) -> Result<(), NoMemory>
    requires earlier { nat_abs earlier < 10 ^ 36 }
    requires later { AreInRange later.now }
    ensures { OnOk result (list.new.items ≡ list.old.items ++ map (λ y. y -ℤ earlier) later.now) }
{
    for value in later {
        list.push(*value - earlier)?;
    }
    Ok(())
}

// What each of the later values is less each of the earlier ones.
fn differences_between(
    alloc: Global,
    earlier: &[i128],
    later: &[i128],
) -> Result<Vec<i128>, NoMemory>
    requires earlier { AreInRange earlier.now }
    requires later { AreInRange later.now }
    ensures { IfOk result (λ list. list.items ≡ differences_between earlier.now later.now) }
{
    let mut list = Vec::new(alloc);
    for value in earlier {
        push_differences(&mut list, *value, later)?;
    }
    Ok(list)
}

// The same, ascending: one sort in place.
fn ascending_between(alloc: Global, earlier: &[i128], later: &[i128]) -> Result<Vec<i128>, NoMemory>
    requires earlier { AreInRange earlier.now }
    requires later { AreInRange later.now }
    ensures { let between = differences_between earlier.now later.now in
        IfOk result (λ list. list.items ≡ in_order int_le between) }
{
    let mut list = differences_between(alloc, earlier, later)?;
    list.sort_unstable();
    Ok(list)
}

/// The differences between the two samples of groups.
pub(crate) fn differences_of(alloc: Global, groups: &Groups) -> Result<Differences, NoMemory>
    requires { length groups.now.labels ≡ 2 }
    ensures { IfOk result (AreMade (data_of groups.now)) }
{
    let values = groups.values.as_slice();
    let members = groups.members.as_slice();
    let whole = whole_values(alloc, values)?;
    let first = labelled_values(alloc, 0, whole.list.as_slice(), members)?;
    let second = labelled_values(alloc, 1, whole.list.as_slice(), members)?;
    let list = ascending_between(alloc, first.as_slice(), second.as_slice())?;
    Ok(Differences {
        places: whole.power,
        list,
    })
}

/// The difference at a place, counted from 1.
pub(crate) fn difference_at(list: &[i128], place: usize) -> i128
    requires some { 1 ≤ place }
    requires within { place ≤ length list.now }
    ensures { result ≡ difference_at list.now place }
{
    list[place - 1]
}

/// The limits at a place from either end, counted from 1, and none at the place 0.
pub(crate) fn limits_at(list: &[i128], place: usize) -> (Option<i128>, Option<i128>)
    requires { place ≤ length list.now }
    ensures lower { result.0 ≡ limit_at place (difference_at list.now place) }
    ensures upper { let mirrored = length list.now + 1 - place in
        result.1 ≡ limit_at place (difference_at list.now mirrored) }
{
    if place == 0 {
        return (None, None);
    }
    let lower = difference_at(list, place);
    let upper = difference_at(list, list.len() + 1 - place);
    (Some(lower), Some(upper))
}

/// The sum of the two middle differences.
pub(crate) fn middle_of(list: &[i128]) -> i128
    requires some { 1 ≤ length list.now }
    requires in_range { AreDifferences list.now }
    ensures { result ≡ middle_of list.now }
{
    difference_at(list, list.len().div_ceil(2)) + difference_at(list, list.len() / 2 + 1)
}
