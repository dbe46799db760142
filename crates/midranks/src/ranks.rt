// Doubled midranks.
ghost use Rattle.std.specs.Prelude.{◌≡◌, ℤ, ◌*◌, ◌≤◌, List, length, map, IfOk};
ghost use Rattle.std.specs.List.{All};
ghost use Rattle.midranks.specs.Midranks.{doubled_midrank, doubled_midranks};
ghost use Rattle.midranks.specs.MidrankSteps.{ranks_after};
ghost use Rattle.midranks.specs.Ties.{tie_groups, values_in};

use crate::MOST_VALUES;
use crate::ties::{Tie, group_of, tie_groups};
use std::alloc::Global;
use weights::{NoMemory, Nums};

// The doubled midrank of each tie group.
fn ranks(alloc: Global, ties: &[Tie]) -> Result<Nums, NoMemory>
    requires { values_in ties.now ≤ MOST_VALUES }
    ensures { IfOk result (λ ranks. ranks ≡ ranks_after 0 ties.now) }
{
    let mut ranks = Nums::empty(alloc);
    let mut before = 0;
    for tie in ties {
        ranks.push(2 * before + tie.count + 1)?;
        before += tie.count;
    }
    Ok(ranks)
}

/// The doubled midrank of each tie group of at most [`MOST_VALUES`] values, ascending.
pub fn group_ranks(alloc: Global, ties: &[Tie]) -> Result<Nums, NoMemory>
    requires { values_in ties.now ≤ MOST_VALUES }
    ensures { IfOk result (λ ranks. (values : List ℤ) → ties.now ≡ tie_groups values
        → ranks ≡ map (λ t. doubled_midrank values t.value) ties.now) }
{
    ranks(alloc, ties)
}

/// The doubled midrank of each of at most [`MOST_VALUES`] values, in the order of the values:
/// twice the number of lesser values, plus the number of equal ones, plus 1. It is twice the
/// average of the ranks that equal values share (Hollander and Wolfe, Nonparametric Statistical
/// Methods, average ranks at ties).
pub fn doubled(alloc: Global, values: &[i128]) -> Result<Nums, NoMemory>
    requires { length values.now ≤ MOST_VALUES }
    ensures ranks { IfOk result (λ ranks. ranks ≡ doubled_midranks values.now) }
    ensures most { IfOk result (λ ranks. All (λ rank. rank ≤ 2 * length values.now) ranks) }
{
    let ties = tie_groups(alloc, values)?;
    let ranks = ranks(alloc, ties.as_slice())?;
    let ties = ties.as_slice();
    let ranks = ranks.as_slice();
    let mut doubled = Nums::empty(alloc);
    for value in values {
        let group = group_of(ties, *value);
        doubled.push(ranks[group])?;
    }
    Ok(doubled)
}
