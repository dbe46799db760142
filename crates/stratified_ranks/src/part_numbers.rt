// The numbers of strata for the stratified rank sum test.
ghost use Rattle.std.specs.Prelude.{◌≡◌, ℕ, List, [], ◌∷◌, ◌≤◌, ◌++◌, map, IfOk, OnOk, SomeIff};
ghost use Rattle.std.specs.List.{sum_by};
ghost use Rattle.weights.specs.declared.TheConstants.{MAX};
ghost use Rattle.enumerate.specs.Joined.{joined_labellings};
ghost use Rattle.enumerate.specs.Walk.{BeginsWith};
ghost use Rattle.stratified_ranks.specs.StrataSteps.{ArePartsSound, part_centre, part_sizes, part_ways};
ghost use Rattle.stratified_ranks.specs.StrataSteps.{parts_total};

use crate::rank_strata::Part;
use enumerate::append_first;
use std::alloc::Global;
use weights::{Bytes, List, NoMemory, Nums, bounded_product, multinomial};

/// How many subjects each stratum has.
pub(crate) fn sizes_of(alloc: Global, parts: &[Part]) -> Result<Nums, NoMemory>
    ensures { IfOk result (λ sizes. sizes ≡ map (λ part. part.subjects) parts.now) }
{
    let mut sizes = Nums::empty(alloc);
    for part in parts {
        sizes.push(part.subjects)?;
    }
    Ok(sizes)
}

// How many labellings a stratum has, or None exactly where they pass the greatest weight.
fn part_ways(part: Part) -> Option<u128>
    requires { part.second ≤ part.subjects }
    ensures { SomeIff result (part_ways part ≤ MAX) (part_ways part) }
{
    multinomial(&[part.subjects - part.second, part.second])
}

/// How many labellings all strata have, or None exactly where they pass the greatest weight.
pub(crate) fn parts_total(parts: &[Part]) -> Option<u128>
    requires { ArePartsSound parts.now }
    ensures { SomeIff result (parts_total parts.now ≤ MAX) (parts_total parts.now) }
{
    let mut all = 1;
    for part in parts {
        all = bounded_product(all, part_ways(*part)?)?;
    }
    Some(all)
}

// The centre of a stratum's sum of ranks.
fn part_centre(part: Part) -> u128
    ensures { result ≡ part_centre part }
{
    part.second as u128 * (part.subjects as u128 + 1)
}

/// The centre of the sum of ranks.
pub(crate) fn centre_of(parts: &[Part]) -> u128
    requires { sum_by part_centre parts.now ≤ MAX }
    ensures { result ≡ sum_by part_centre parts.now }
{
    let mut centre = 0;
    for part in parts {
        centre += part_centre(*part);
    }
    centre
}

// Appends the first labelling of a stratum to those of strata before it.
fn append_part(alloc: Global, part: Part, labels: &mut Bytes) -> Result<(), NoMemory>
    requires { part.second ≤ part.subjects }
    ensures { OnOk result ((parts : List (List ℕ)) → BeginsWith (joined_labellings parts) labels.old
        → BeginsWith (joined_labellings (parts ++ part_sizes part ∷ [])) labels.new) }
{
    append_first(alloc, &[part.subjects - part.second, part.second], labels)
}

/// The first labelling of strata.
pub(crate) fn first_labels(alloc: Global, parts: &[Part]) -> Result<Bytes, NoMemory>
    requires { ArePartsSound parts.now }
    ensures { IfOk result (BeginsWith (joined_labellings (map part_sizes parts.now))) }
{
    let mut labels = Bytes::empty(alloc);
    for part in parts {
        append_part(alloc, *part, &mut labels)?;
    }
    Ok(labels)
}
