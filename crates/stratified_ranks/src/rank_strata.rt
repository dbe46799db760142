// The strata of samples, the subjects of each by ascending value.
ghost use Rattle.std.specs.Prelude.{◌≡◌, ◌≤◌, ◌<◌, ◌++◌, ◌^◌, ◌∷◌, [], List, length, map, IfOk, OnOk};
ghost use Rattle.std.specs.Prelude.{pos};
ghost use Rattle.std.specs.List.{All};
ghost use Rattle.midranks.specs.declared.TheConstants.{MOST_VALUES};
ghost use Rattle.sample_reader.specs.Data.{strata_data_of};
ghost use Rattle.sample_reader.specs.PooledSample.{labels_of};
ghost use Rattle.sample_reader.specs.declared.subjects.Subject.{Subject};
ghost use Rattle.stratified_ranks.specs.RankMade.{AreLists};
ghost use Rattle.stratified_ranks.specs.StrataSteps.{part_of};
ghost use Rattle.stratified_ranks.specs.StratifiedRanks.{at_place, second_size, strata_subjects};
ghost use Rattle.stratified_ranks.specs.StratifiedRanks.{stratum_subjects};

use crate::rank_columns::{Column, push_columns};
use midranks::{doubled, tie_groups};
use pooled_columns::labels_in;
use sample_reader::{StrataGroups, Subject, ordered_subjects, values};
use std::alloc::Global;
use weights::{Bytes, Ints, List, NoMemory};

/// How many subjects a stratum has, and how many of them are of the second group.
#[derive(Clone, Copy, Debug, PartialEq, Eq)]
pub(crate) struct Part {
    pub subjects: u64,
    pub second: u64,
}

/// What is made of strata, one after another.
#[derive(Drop)]
pub(crate) struct RankStrata {
    pub parts: List<Part>,
    pub columns: List<Column>,
    /// The subjects' doubled midranks and their labels, stratum by stratum and by ascending value.
    pub ranks: Ints,
    pub labels: Bytes,
}

// How many subjects are of the second group.
fn second_size(subjects: &[Subject]) -> u64
    ensures { result ≡ second_size subjects.now }
{
    let second = subjects.iter().filter(|subject| subject.label == 1);
    second.count() as u64
}

fn part_of(subjects: &[Subject]) -> Part
    ensures { result ≡ part_of subjects.now }
{
    Part {
        subjects: subjects.len() as u64,
        second: second_size(subjects),
    }
}

// Adds numbers that are not negative.
fn push_naturals(signed: &mut Ints, naturals: &[u64]) -> Result<(), NoMemory>
    ensures { OnOk result (signed.new ≡ signed.old ++ map pos naturals.now) }
{
    for natural in naturals {
        signed.push(*natural as i128)?;
    }
    Ok(())
}

// The items at a place.
fn at_place<T: Copy>(
    alloc: Global,
    place: u64,
    places: &[u64],
    items: &[T],
) -> Result<List<T>, NoMemory>
    requires { length items.now ≡ length places.now }
    ensures { IfOk result (λ own. own ≡ at_place place places.now items.now) }
{
    let mut own = List::empty(alloc);
    for i in 0..places.len() {
        let item = items[i];
        if places[i] == place {
            own.push(item)?;
        }
    }
    Ok(own)
}

// The subjects of a stratum.
fn stratum_subjects(
    alloc: Global,
    samples: &StrataGroups,
    stratum: u64,
) -> Result<Vec<Subject>, NoMemory>
    ensures are { let subjects = stratum_subjects (strata_data_of samples.now) stratum in
        IfOk result (λ found. found.items ≡ subjects) }
    ensures few { IfOk result (λ found. length found.items ≤ MOST_VALUES) }
    ensures small { IfOk result (λ found. All (λ label. label < 2 ^ 8) (labels_of found.items)) }
{
    let places = samples.places.as_slice();
    let values = at_place(alloc, stratum, places, samples.values.as_slice())?;
    let members = at_place(alloc, stratum, places, samples.members.as_slice())?;
    let subjects = ordered_subjects(alloc, values.as_slice(), members.as_slice())?;
    Ok(subjects)
}

impl RankStrata {
    // Of no stratum. It takes no memory.
    fn empty(alloc: Global) -> RankStrata
        ensures { AreLists [] result }
    {
        RankStrata {
            parts: List::empty(alloc),
            columns: List::empty(alloc),
            ranks: Ints::empty(alloc),
            labels: Bytes::empty(alloc),
        }
    }

    // Adds a stratum at the end.
    fn push(&mut self, alloc: Global, subjects: &[Subject]) -> Result<(), NoMemory>
        requires few { length subjects.now ≤ MOST_VALUES }
        requires small { All (λ label. label < 2 ^ 8) (labels_of subjects.now) }
        ensures { OnOk result ((strata : List (List Subject)) → AreLists strata self.old
            → AreLists (strata ++ subjects.now ∷ []) self.new) }
    {
        let part = part_of(subjects);
        let values = values(alloc, subjects)?;
        let ties = tie_groups(alloc, values.as_slice())?;
        let ranks = doubled(alloc, values.as_slice())?;
        let labels = labels_in(alloc, subjects)?;
        self.parts.push(part)?;
        push_columns(
            &mut self.columns,
            ties.as_slice(),
            part.subjects,
            part.second,
        )?;
        push_naturals(&mut self.ranks, ranks.as_slice())?;
        self.labels.append(labels.as_slice())?;
        Ok(())
    }

    /// What is made of the strata of samples.
    pub(crate) fn of(alloc: Global, samples: &StrataGroups) -> Result<RankStrata, NoMemory>
        ensures { IfOk result (AreLists (strata_subjects (strata_data_of samples.now))) }
    {
        let mut made = RankStrata::empty(alloc);
        for stratum in 0..samples.strata.len() {
            let subjects = stratum_subjects(alloc, samples, stratum as u64)?;
            made.push(alloc, subjects.as_slice())?;
        }
        Ok(made)
    }
}
