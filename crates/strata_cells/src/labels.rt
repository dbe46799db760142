// What a walk through the labellings of strata begins with.
ghost use Rattle.std.specs.Prelude.{◌≡◌, map, IfOk, sum};
ghost use Rattle.enumerate.specs.Walk.{BeginsWith};
ghost use Rattle.strata_cells.specs.Strata.{row_counts, strata_labellings};
ghost use Rattle.strata_cells.specs.StrataLimits.{AreSmall};

use crate::stratum::Stratum;
use enumerate::append_first;
use std::alloc::Global;
use weights::{Bytes, NoMemory, Nums};

/// The first labelling of the strata. From one to the next leads `enumerate::next_joined` with the
/// strata's sizes.
pub fn first_labels(alloc: Global, strata: &[Stratum]) -> Result<Bytes, NoMemory>
    requires { AreSmall strata.now }
    ensures { IfOk result (BeginsWith (strata_labellings strata.now)) }
{
    let mut labels = Bytes::empty(alloc);
    for stratum in strata {
        let counts = [stratum.first_row(), stratum.second_row()];
        append_first(alloc, &counts, &mut labels)?;
    }
    Ok(labels)
}

/// The strata's sizes, each the sum of how many subjects have each label.
pub fn sizes(alloc: Global, strata: &[Stratum]) -> Result<Nums, NoMemory>
    requires { AreSmall strata.now }
    ensures { IfOk result (λ sizes. map sum (map row_counts strata.now) ≡ sizes) }
{
    let mut sizes = Nums::empty(alloc);
    for stratum in strata {
        sizes.push(stratum.size())?;
    }
    Ok(sizes)
}
