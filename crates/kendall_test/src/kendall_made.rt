// Two values of each subject, made ready for Kendall's test.
ghost use Rattle.std.specs.Prelude.{◌≡◌, IfOk};
ghost use Rattle.std.specs.List.{Any};
ghost use Rattle.midranks.specs.Ties.{IsAscending};
ghost use Rattle.sample_reader.specs.Data.{twin_data_of};
ghost use Rattle.kendall_test.specs.Kendall.{kendall_subjects, place_among, places_of};

use midranks::{Tie, group_of, tie_groups};
use sample_reader::{Subject, Twins, ordered_subjects};
use std::alloc::Global;
use weights::{Ints, NoMemory, Nums};

/// What is made of two values of each subject.
#[derive(Drop)]
pub(crate) struct KendallMade {
    /// How many subjects have each distinct first value, ascending.
    pub columns: Nums,
    /// How many have each distinct second value, ascending.
    pub rows: Nums,
    /// The first values, ascending.
    pub firsts: Ints,
    /// How many ways there are to give the second values to the subjects.
    pub total: u128,
}

// The place of a value among distinct ones.
fn place_in(ties: &[Tie], value: i128) -> u64
    requires ascending { IsAscending ties.now }
    requires member { Any (λ tie. tie.value ≡ value) ties.now }
    ensures { result ≡ place_among ties.now value }
{
    group_of(ties, value) as u64
}

// The place of each value among the distinct ones.
fn places_of(alloc: Global, values: &[i128]) -> Result<Nums, NoMemory>
    ensures { IfOk result (λ places. places ≡ places_of values.now) }
{
    let groups = tie_groups(alloc, values)?;
    let ties = groups.as_slice();
    let mut places = Nums::empty(alloc);
    for value in values {
        places.push(place_in(ties, *value))?;
    }
    Ok(places)
}

/// The subjects in ascending order of their first values, each labelled by the place of its second
/// value among the distinct ones.
pub(crate) fn kendall_subjects(alloc: Global, sample: &Twins) -> Result<Vec<Subject>, NoMemory>
    ensures { IfOk result (λ subjects.
        subjects.items ≡ kendall_subjects (twin_data_of sample.now)) }
{
    let places = places_of(alloc, sample.second.as_slice())?;
    ordered_subjects(alloc, sample.first.as_slice(), places.as_slice())
}
