// From one labelling of strata with a given sum of first cells to the next.
ghost use Rattle.std.specs.Prelude.{◌≡◌, [], filter, length, Contains, IfOk, ◌≤◌, true};
ghost use Rattle.record_reader.specs.declared.TheConstants.{MOST_ROWS};
ghost use Rattle.enumerate.specs.Walk.{BeginsWith, StepsThrough, members_after};
ghost use Rattle.strata_cells.specs.Strata.{row_counts, strata_labellings};
ghost use Rattle.strata_cells.specs.StrataLimits.{AreSmall};
ghost use Rattle.zelen_test.specs.Zelen.{has_sum};
ghost use Rattle.zelen_test.specs.SumSteps.{AreSized, IsLastWith, IsOnward};

use enumerate::{begin_anew, next_joined};
use std::alloc::Global;
use strata_cells::{Stratum, first_cells, first_labels};
use weights::{Bytes, NoMemory};

// Moves on until the first cells have the sum again. False where they never have, and then the
// last of all labellings is reached.
fn move_on(strata: &[Stratum], sizes: &[u64], sum: u64, labels: &mut [u8]) -> bool
    requires sized { AreSized strata.now sizes.now }
    requires member { Contains (strata_labellings strata.now) labels.old }
    ensures { IsOnward strata.now sum labels.old result labels.new }
{
    while next_joined(sizes, labels) {
        if first_cells(strata, labels) == sum {
            return true;
        }
    }
    false
}

// Moves from the last of all labellings back to the last one with the sum, of which there are so
// many: from the first one on through them all, since no memory may be taken to keep it.
fn go_back(strata: &[Stratum], sizes: &[u64], sum: u64, total: u128, labels: &mut [u8])
    requires sized { AreSized strata.now sizes.now }
    requires member { Contains (strata_labellings strata.now) labels.old }
    requires last { members_after labels.old (strata_labellings strata.now) ≡ [] }
    requires total { total
        ≡ length (filter (has_sum strata.now sum) (strata_labellings strata.now)) }
    requires some { 1 ≤ total }
    ensures { IsLastWith strata.now sum labels.new }
{
    begin_anew(sizes, labels);
    let mut left = total;
    if first_cells(strata, labels) == sum {
        left -= 1;
    }
    while left > 0 {
        move_on(strata, sizes, sum, labels);
        left -= 1;
    }
}

/// Moves to the next labelling whose first cells have the sum, of which there are so many. False
/// comes exactly at the last one, which stays.
pub(crate) fn next_with_sum(
    strata: &[Stratum],
    sizes: &[u64],
    sum: u64,
    total: u128,
    labels: &mut [u8],
) -> bool
    requires sized { AreSized strata.now sizes.now }
    requires member { Contains (filter (has_sum strata.now sum) (strata_labellings strata.now))
        labels.old }
    requires total { total
        ≡ length (filter (has_sum strata.now sum) (strata_labellings strata.now)) }
    ensures { StepsThrough (filter (has_sum strata.now sum) (strata_labellings strata.now))
        labels.old result labels.new }
{
    if move_on(strata, sizes, sum, labels) {
        return true;
    }
    go_back(strata, sizes, sum, total, labels);
    false
}

/// The first labelling whose first cells have the sum.
pub(crate) fn first_with_sum(
    alloc: Global,
    strata: &[Stratum],
    sizes: &[u64],
    sum: u64,
) -> Result<Bytes, NoMemory>
    requires sized { AreSized strata.now sizes.now }
    requires some { 1 ≤ length (filter (has_sum strata.now sum) (strata_labellings strata.now)) }
    ensures { IfOk result (BeginsWith
        (filter (has_sum strata.now sum) (strata_labellings strata.now))) }
{
    let mut labels = first_labels(alloc, strata)?;
    if first_cells(strata, labels.as_slice()) != sum {
        move_on(strata, sizes, sum, labels.as_mut_slice());
    }
    Ok(labels)
}
